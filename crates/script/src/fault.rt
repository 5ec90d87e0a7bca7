// What is wrong with an input, and on which line.
ghost use Rattle.std.specs.Prelude.{◌≡◌};
ghost use Rattle.script.specs.declared.fault.Problem.TheVariants.{Refused};

use field::Refusal;
use std::error::Error;
use std::fmt;

#[derive(Clone, Copy, PartialEq, Eq, Debug)]
pub enum Problem {
    // the line is not text
    NotText,
    // the first word names no item
    UnknownItem,
    // the item is known, and not wanted here
    Misplaced,
    // the input ends before all items have come
    Unfinished,
    // the line ends where a number is wanted
    MissingNumber,
    // a word stands where the line must end
    ExtraWord,
    // a word is no number
    NotANumber,
    // a number is larger than this
    TooLarge(u32),
    // a polynomial has more coefficients than a record holds
    TooManyCoefficients,
    // a rule of the fields or of the settings refuses what is asked for
    Refused(Refusal),
}

#[derive(Clone, Copy, PartialEq, Eq, Debug)]
pub struct Fault {
    pub line: usize,
    pub what: Problem,
}

impl From<Refusal> for Problem {
    ghost from_gives = { λ refusal problem. problem ≡ Refused refusal };

    fn from(refusal: Refusal) -> Problem {
        Problem::Refused(refusal)
    }
}

impl fmt::Display for Problem {
    fn fmt<W: fmt::Write>(&self, f: &mut fmt::Formatter<W>) -> fmt::Result {
        match *self {
            Problem::NotText => f.write_str("this is not text in UTF-8"),
            Problem::UnknownItem => f.write_str(
                "the first word is none of prime, extend, setting, steps, find, add and multiple",
            ),
            Problem::Misplaced => {
                f.write_str(
                    "this item is not wanted here: the order is prime, extend as often as wanted, setting, steps, and then find, add and multiple as often as wanted",
                )
            }
            Problem::Unfinished => {
                f.write_str(
                    "the input ends too early: prime, setting and steps must be there, in this order",
                )
            }
            Problem::MissingNumber => f.write_str("a number is missing"),
            Problem::ExtraWord => f.write_str("there is a word too many"),
            Problem::NotANumber => f.write_str("a word is not a number in decimal digits"),
            Problem::TooLarge(most) => write!(f, "a number is larger than {most}"),
            Problem::TooManyCoefficients => f.write_str(
                "the polynomial has more than 128 coefficients",
            ),
            Problem::Refused(refusal) => {
                let number = refusal.number();
                write!(f, "refusal {number}: {refusal}")
            }
        }
    }
}

impl fmt::Display for Fault {
    fn fmt<W: fmt::Write>(&self, f: &mut fmt::Formatter<W>) -> fmt::Result {
        let line = self.line;
        let what = self.what;
        write!(f, "line {line}: {what}")
    }
}

impl Error for Problem {}

impl Error for Fault {}
