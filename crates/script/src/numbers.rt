// Numbers in decimal digits.
ghost use Rattle.std.specs.Prelude.{Decides};
ghost use Rattle.std.specs.Str.Parse.{IsNumeral};
ghost use Rattle.script.specs.Numbers.{NumberRead};

use crate::fault::Problem;

// Whether a word is a number: one decimal digit or more, and nothing else.
pub fn is_number(word: &str) -> bool
    ensures { Decides result (IsNumeral 10 word.now) }
{
    let bytes = word.as_bytes();
    !bytes.is_empty() && bytes.iter().all(u8::is_ascii_digit)
}

// The number that a word writes, which may be `most` at most.
pub fn number(word: &str, most: u32) -> Result<u32, Problem>
    ensures { NumberRead most word.now result }
{
    if !is_number(word) {
        return Err(Problem::NotANumber);
    }
    match word.parse::<u32>() {
        Ok(n) if n <= most => Ok(n),
        _ => Err(Problem::TooLarge(most)),
    }
}
