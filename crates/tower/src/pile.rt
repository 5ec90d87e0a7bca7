// The fields that can be piled up, each a type of its own.
use field::{Extension, Prime};

pub type First = Extension<Prime>;

pub type Second = Extension<First>;

pub type Third = Extension<Second>;

pub type Fourth = Extension<Third>;

// A prime field, or what one to four extensions make of it. There is no fifth: even above 3 the fourth has 43046721 elements,
// too many for another.
#[derive(Clone, Copy)]
pub enum Pile {
    Base(Prime),
    One(First),
    Two(Second),
    Three(Third),
    Four(Fourth),
}
