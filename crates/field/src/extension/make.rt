// Making an extension: three questions in their order, each with its refusal.
ghost use Rattle.std.specs.Prelude.{◌≡◌, MatchResult};
ghost use Rattle.field.specs.Meaning.{Lawful};
ghost use Rattle.field.specs.Extensions.{extended, Extends, Refuses};
ghost use Rattle.field.specs.Made.{extension_meaning};

use crate::extension::Extension;
use crate::interface::Field;
use crate::refusal::Refusal;

// The most elements that a field has.
const MOST: u64 = 2147483647;

impl<F: Field + Drop> Extension<F> {
    // The extension of the base by a square root of n, which must have none in the base. It is lawful if the base is.
    pub fn new(base: F, n: u32) -> Result<Extension<F>, Refusal>
        ensures { MatchResult result (λ e. Extends (F.meaning base) n × (extension_meaning F.meaning e ≡ extended (F.meaning base) n) × (Lawful (F.meaning base) → Lawful (extension_meaning F.meaning e))) (λ e. Refuses (F.meaning base) n e) }
    {
        let q = base.size();
        if q as u64 * q as u64 > MOST {
            return Err(Refusal::TooLarge);
        }
        if n >= q {
            return Err(Refusal::NotACode);
        }
        if (0..q).any(|x| base.mul(x, x) == n) {
            return Err(Refusal::Square);
        }
        Ok(Extension { base, n, q })
    }
}
