// The field of 19 elements.
ghost use Rattle.std.specs.Prelude.{◌≡◌, ◌<◌};
ghost use Rattle.field.specs.Meaning.{Lawful};
ghost use Rattle.field.specs.Primes.{prime_meaning, inverse_mod};

use field::Field;

// The inverses of the elements from 1 on.
const INVERSES: [u32; 18] = [
    1, 10, 13, 5, 4, 16, 11, 12, 17, 2, 7, 8, 3, 15, 14, 6, 9, 18,
];

#[derive(Clone, Copy)]
pub struct Nineteen;

impl Nineteen {
    // The field keeps the laws: its meaning is arithmetic modulo 19, and 19 is prime.
    pub fn new() -> Nineteen
        ensures { Lawful (prime_meaning 19) }
    {
        Nineteen
    }
}

impl Field for Nineteen {
    ghost meaning = { λ _. prime_meaning 19 };

    fn size(&self) -> u32 {
        19
    }

    fn add(&self, a: u32, b: u32) -> u32 {
        if a >= 19 || b >= 19 {
            return 0;
        }
        let sum = a + b;
        if sum < 19 { sum } else { sum - 19 }
    }

    fn neg(&self, a: u32) -> u32 {
        if a == 0 || a >= 19 {
            return 0;
        }
        19 - a
    }

    fn mul(&self, a: u32, b: u32) -> u32 {
        if a >= 19 || b >= 19 {
            return 0;
        }
        a * b % 19
    }

    fn inv(&self, a: u32) -> Option<u32> {
        INVERSES.get(a.checked_sub(1)? as usize).copied()
    }
}
