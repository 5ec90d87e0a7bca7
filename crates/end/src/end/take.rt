// Take: the other side's offer, and the key.
ghost use Rattle.field.specs.declared.refusal.Refusal.TheVariants.{NotOpen};
ghost use Rattle.end.specs.Modes.{InOpen, Asked};
ghost use Rattle.end.specs.Results.{Takes, OfferRead, Unchanged, OnlyTheKey};

use super::End;
use crate::modes::{Call, Mode};
use field::{Field, Refusal};
use ideal::{Curve, Ideal};
use place::Place;

// The ideal of an offer, or the first of its questions with the answer no.
fn read_offer<F: Field>(curve: &Curve<F>, bytes: &[u8]) -> Result<Ideal, Refusal>
    ensures { OfferRead (F.meaning curve.now.field) curve.now.setting bytes.now result }
{
    let (q, p) = packet::read_offer(&curve.field, bytes)?;
    // where Q has more codes than a record holds, its degree is m or more
    let q = q.ok_or(Refusal::NotReduced)?;
    // where P has, it is not lower than Q; neither is Q itself, which meets the same answers
    Ideal::new(curve, &q, &p.unwrap_or(q))
}

impl<F: Field> End<F> {
    // Takes the other side's offer; the end is then keyed. 36: is the end open? Then the questions of the offer. 44: is the
    // ideal other than (1)? The key is the ideal of the multiple of that ideal, at offset 0, by the own distance. 45: is the
    // key other than (1)?
    pub fn take(&mut self, bytes: &[u8]) -> Result<(), Refusal>
        ensures follows { Takes (F.meaning self.old.field) self.old bytes.now result self.new }
        ensures rest { OnlyTheKey self.old self.new }
        ensures unchanged { Unchanged self.old self.new result }
        ensures asked { Asked (InOpen self.old.mode) NotOpen result }
    {
        let curve = self.curve_for(Call::Take)?;
        let ideal = read_offer(&curve, bytes)?;
        if ideal.is_one() {
            return Err(Refusal::TrivialOffer);
        }
        let place = Place::new(&curve.setting, &ideal, 0)?;
        let multiple = place.multiple(&curve, &self.distance);
        if multiple.ideal().is_one() {
            return Err(Refusal::TrivialKey);
        }
        self.mode = Mode::Keyed(curve.setting);
        self.key = *multiple.ideal();
        Ok(())
    }
}
