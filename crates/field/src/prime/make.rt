// Making a prime field. The table of moduli is looked through here, and nowhere else: that the inverse law holds rests on the
// primality of the ten numbers, which the proofs compute once over the table.
ghost use Rattle.std.specs.Prelude.{◌≡◌, true, false, MatchResult};
ghost use Rattle.field.specs.Meaning.{Lawful};
ghost use Rattle.field.specs.Primes.{moduli, listed, prime_meaning};
ghost use Rattle.field.specs.Made.{prime_field_meaning};

use crate::prime::Prime;
use crate::refusal::Refusal;

const MODULI: [u32; 10] = [3, 5, 7, 11, 13, 17, 251, 10007, 65521, 100003];

impl Prime {
    // The field of modulus p, refused exactly where p is none of the moduli.
    pub fn new(p: u32) -> Result<Prime, Refusal>
        ensures { MatchResult result (λ f. (listed p moduli ≡ true) × (prime_field_meaning f ≡ prime_meaning p) × Lawful (prime_field_meaning f)) (λ e. (listed p moduli ≡ false) × (e ≡ Refusal.NotAModulus)) }
    {
        if MODULI.contains(&p) {
            Ok(Prime { p })
        } else {
            Err(Refusal::NotAModulus)
        }
    }
}
