// Open: a secret number, and the ideal closest to its left.
ghost use Rattle.std.specs.Prelude.{◌≡◌, ◌≤◌, length, replicate, Decides};
ghost use Rattle.field.specs.declared.refusal.Refusal.TheVariants.{NotReady, WrongSecretLength};
ghost use Rattle.place.specs.Lessened.{Left};
ghost use Rattle.end.specs.Modes.{InReady, Asked};
ghost use Rattle.end.specs.Results.{Opens, OneTo32, Unchanged, NotTheKey};

use super::End;
use crate::guard::Guard;
use crate::modes::{Call, Mode};
use field::{Field, Refusal};
use place::{Place, lessen};

// Whether a number has 1 to 32 bytes. Each call that asks gives the refusal itself, so that its questions stand in their order.
pub(crate) fn is_number(bytes: &[u8]) -> bool
    ensures { Decides result (OneTo32 bytes.now) }
{
    (1..=32).contains(&bytes.len())
}

// Writes the number less `by` into 32 bytes. The number is read where it is: no copy of a secret is made but this one.
fn keep(distance: &mut [u8; 32], number: &[u8], by: usize)
    requires { length number.now ≤ 32 }
    ensures { Left number.now by distance.new }
{
    let start = 32 - number.len();
    distance.fill(0);
    distance[start..32].copy_from_slice(number);
    lessen(distance, by);
}

impl<F: Field> End<F> {
    // Takes a secret, a number with its high byte first; the end is then open, and keeps the ideal and its own distance, the
    // secret less the offset. 31: is the end ready? 32: has the secret 1 to 32 bytes? 33: is its ideal other than (1)?
    // The secret's bytes are zero on every way out: they are read through the guard.
    pub fn open(&mut self, secret: &mut [u8]) -> Result<(), Refusal>
        ensures follows { Opens (F.meaning self.old.field) self.old secret.old result secret.new self.new }
        ensures zero { secret.new ≡ replicate (length secret.old) 0 }
        ensures rest { NotTheKey self.old self.new }
        ensures unchanged { Unchanged self.old self.new result }
        ensures asked { Asked (InReady self.old.mode) NotReady result }
        ensures sized { InReady self.old.mode → Asked (OneTo32 secret.old) WrongSecretLength result }
    {
        let guard = Guard(secret);
        let number = &*guard.0;
        let curve = self.curve_for(Call::Open)?;
        if !is_number(number) {
            return Err(Refusal::WrongSecretLength);
        }
        let place = Place::find(&curve, number);
        if place.ideal().is_one() {
            return Err(Refusal::TrivialSecret);
        }
        self.mode = Mode::Open(curve.setting);
        self.ideal = *place.ideal();
        keep(&mut self.distance, number, place.offset());
        Ok(())
    }
}
