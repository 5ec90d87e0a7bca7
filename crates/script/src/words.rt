// The words of a line.
ghost use Rattle.std.specs.Prelude.{◌≡◌, ℕ, ◌≤◌, ◌⊎◌, List, Err, IfOk, IfErr, MatchOption};
ghost use Rattle.std.specs.Str.Parse.{IsNumeral, digits_value};
ghost use Rattle.script.specs.Numbers.{NumberRead};
ghost use Rattle.script.specs.Wording.{rest_of, HasNoWord, NextWord};

use crate::codes::Codes;
use crate::fault::Problem;
use crate::numbers::number;
use crate::wide::Wide;
use std::str::SplitWhitespace;

#[derive(Drop)]
pub struct Words<'a> {
    rest: SplitWhitespace<'a>,
}

impl<'a> Words<'a> {
    pub fn of(line: &'a str) -> Words<'a>
        ensures { rest_of result ≡ line.now }
    {
        Words {
            rest: line.split_whitespace(),
        }
    }

    // The next word, if there is one. The iterator behind it is this type's own, and not handed out.
    pub fn word(&mut self) -> Option<&'a str>
        ensures { MatchOption result (HasNoWord (rest_of self.old) × (self.new ≡ self.old)) (λ w. NextWord (rest_of self.old) w.now (rest_of self.new)) }
    {
        self.rest.next()
    }

    // The next word as a number of `most` at most.
    pub fn number(&mut self, most: u32) -> Result<u32, Problem>
        ensures small { IfOk result (λ n. n ≤ most) }
        ensures read { (HasNoWord (rest_of self.old) × (result ≡ Err Problem.MissingNumber) × (self.new ≡ self.old)) ⊎ ((w : List ℕ) × NextWord (rest_of self.old) w (rest_of self.new) × NumberRead most w result) }
    {
        number(self.word().ok_or(Problem::MissingNumber)?, most)
    }

    // The next word as a number of 32 bytes at most.
    pub(crate) fn wide_number(&mut self) -> Result<Wide, Problem> {
        self.word().ok_or(Problem::MissingNumber)?.parse()
    }

    // The words that are left as the codes of a polynomial, of which there is one at least.
    pub(crate) fn codes(&mut self) -> Result<Codes, Problem> {
        let mut codes = Codes::none();
        codes.push(self.number(u32::MAX)?)?;
        for word in &mut self.rest {
            codes.push(number(word, u32::MAX)?)?;
        }
        Ok(codes)
    }

    // That no word is left.
    pub fn end(&mut self) -> Result<(), Problem>
        ensures none { IfOk result (λ _. HasNoWord (rest_of self.old)) }
        ensures extra { IfErr result (λ e. (e ≡ Problem.ExtraWord) × (w : List ℕ) × NextWord (rest_of self.old) w (rest_of self.new)) }
    {
        match self.word() {
            None => Ok(()),
            Some(_) => Err(Problem::ExtraWord),
        }
    }
}
