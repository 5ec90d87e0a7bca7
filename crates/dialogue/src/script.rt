// Scripts and logs.
use field::Refusal;

// Which of the two ends.
#[derive(Clone, Copy)]
pub enum Side {
    Left,
    Right,
}

// A call with what it is handed: bytes, or the length of the buffer to write to.
#[derive(Drop)]
pub enum Order {
    Load(Vec<u8>),
    Open(Vec<u8>),
    Tell(usize),
    Take(Vec<u8>),
    Key(usize),
    Close,
}

// One call of a script.
#[derive(Drop)]
pub struct Line {
    pub side: Side,
    pub order: Order,
}

// What came of a call: its answer and the bytes that it wrote. Open writes zeros over the secret.
#[derive(Drop)]
pub struct Event {
    pub side: Side,
    pub answer: Result<(), Refusal>,
    pub written: Vec<u8>,
}
