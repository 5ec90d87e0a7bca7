// The programs' input and output: an input is text of one item a line, and polynomials are written as people write them.
//
// `text` is an input as text, and `fault` says what is wrong with it, and on which line; `words`, `numbers`, `wide` and `codes` take a line apart;
// `ground` reads the setting that every input names after its field; `plan` is what the program `line` is asked for, `walk`
// the walk along the line that it prints, and `request` a question about places; `show` writes polynomials.
#![tactic(auto)]

mod codes;
mod fault;
mod ground;
mod numbers;
mod plan;
mod request;
mod show;
mod text;
mod walk;
mod wide;
mod words;

pub use codes::Codes;
pub use fault::{Fault, Problem};
pub use numbers::{is_number, number};
pub use plan::{Plan, read, request_on};
pub use request::{Placed, Request};
pub use show::Shown;
pub use text::text_of;
pub use walk::{Stop, Walk};
pub use wide::Wide;
pub use words::Words;
