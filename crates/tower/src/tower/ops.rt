// The operations of the chosen field.
ghost use Rattle.tower.specs.Towers.{tower_meaning};

use crate::pile::Pile;
use crate::tower::Tower;
use field::Field;

// What the field on top of a pile answers: the arms differ only in the field's type. It is a macro because contracts do not
// cover a `dyn Field` in a closure's bound, and no function may hand one out.
macro_rules! top {
    ($pile:expr, $f:ident => $answer:expr) => {
        match $pile {
            Pile::Base($f) => $answer,
            Pile::One($f) => $answer,
            Pile::Two($f) => $answer,
            Pile::Three($f) => $answer,
            Pile::Four($f) => $answer,
        }
    };
}

impl Field for Tower {
    ghost meaning = { tower_meaning };

    fn size(&self) -> u32 {
        top!(&self.pile, f => f.size())
    }

    fn add(&self, a: u32, b: u32) -> u32 {
        top!(&self.pile, f => f.add(a, b))
    }

    fn neg(&self, a: u32) -> u32 {
        top!(&self.pile, f => f.neg(a))
    }

    fn mul(&self, a: u32, b: u32) -> u32 {
        top!(&self.pile, f => f.mul(a, b))
    }

    fn inv(&self, a: u32) -> Option<u32> {
        top!(&self.pile, f => f.inv(a))
    }
}
