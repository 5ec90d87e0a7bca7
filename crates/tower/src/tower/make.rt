// Making a field from what is known only at run time.
ghost use Rattle.std.specs.Prelude.{◌≡◌, true, false, MatchResult};
ghost use Rattle.field.specs.Meaning.{Lawful};
ghost use Rattle.field.specs.Extensions.{extended, Extends, Refuses};
ghost use Rattle.field.specs.Primes.{moduli, listed, prime_meaning};
ghost use Rattle.tower.specs.Towers.{tower_meaning};

use crate::pile::Pile;
use crate::tower::Tower;
use field::{Extension, Prime, Refusal};

impl Tower {
    // The field of p elements, where p is one of the moduli.
    pub fn prime(p: u32) -> Result<Tower, Refusal>
        ensures { MatchResult result (λ t. (listed p moduli ≡ true) × (tower_meaning t ≡ prime_meaning p) × Lawful (tower_meaning t)) (λ e. (listed p moduli ≡ false) × (e ≡ Refusal.NotAModulus)) }
    {
        Ok(Tower {
            pile: Pile::Base(Prime::new(p)?),
        })
    }

    // The extension of this field by a square root of n, which must have none in it. A fifth extension is always too large.
    pub fn extend(self, n: u32) -> Result<Tower, Refusal>
        ensures { MatchResult result (λ t. Extends (tower_meaning self) n × (tower_meaning t ≡ extended (tower_meaning self) n) × (Lawful (tower_meaning self) → Lawful (tower_meaning t))) (λ e. Refuses (tower_meaning self) n e) }
    {
        let pile = match self.pile {
            Pile::Base(f) => Pile::One(Extension::new(f, n)?),
            Pile::One(f) => Pile::Two(Extension::new(f, n)?),
            Pile::Two(f) => Pile::Three(Extension::new(f, n)?),
            Pile::Three(f) => Pile::Four(Extension::new(f, n)?),
            Pile::Four(_) => return Err(Refusal::TooLarge),
        };
        Ok(Tower { pile })
    }
}
