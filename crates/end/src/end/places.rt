// Find and add: places for whoever asks. Both leave the end as it is.
ghost use Rattle.std.specs.Prelude.{◌<◌, Decides};
ghost use Rattle.field.specs.declared.refusal.Refusal.TheVariants.{NotLoaded, WrongSecretLength};
ghost use Rattle.std.specs.List.{AllByRecursion};
ghost use Rattle.packet.specs.Polynomials.{codes_down};
ghost use Rattle.end.specs.Modes.{InLoaded, Asked};
ghost use Rattle.end.specs.Results.{OneTo32};
ghost use Rattle.end.specs.Places.{PlaceRead, Finds, Adds, AddsOnLine};

use super::open::is_number;
use super::{End, GivenPlace};
use crate::modes::Call;
use field::{Field, Refusal};
use ideal::{Curve, Ideal};
use place::Place;
use poly::Poly;

// Whether every code of the polynomial is one of the field's.
fn in_field<F: Field>(f: &F, p: &Poly) -> bool
    ensures { Decides result (AllByRecursion (λ c. c < (F.meaning f.now).size) (codes_down p.now)) }
{
    p.codes().iter().all(|c| *c < f.size())
}

// The place that is claimed, or the first of its questions with the answer no.
fn read_place<F: Field>(curve: &Curve<F>, given: &GivenPlace) -> Result<Place, Refusal>
    ensures { PlaceRead (F.meaning curve.now.field) curve.now.setting given.now result }
{
    if !in_field(&curve.field, &given.q) || !in_field(&curve.field, &given.p) {
        return Err(Refusal::CodeTooLarge);
    }
    let ideal = Ideal::new(curve, &given.q, &given.p)?;
    Place::new(&curve.setting, &ideal, given.offset)
}

impl<F: Field> End<F> {
    // Place n, where `number` is n with its high byte first. 38: is a setting loaded? 32: has the number 1 to 32 bytes?
    pub fn find(&self, number: &[u8]) -> Result<Place, Refusal>
        ensures finds { Finds (F.meaning self.now.field) self.now number.now result }
        ensures asked { Asked (InLoaded self.now.mode) NotLoaded result }
        ensures sized { InLoaded self.now.mode → Asked (OneTo32 number.now) WrongSecretLength result }
    {
        let curve = self.curve_for(Call::Find)?;
        if !is_number(number) {
            return Err(Refusal::WrongSecretLength);
        }
        Ok(Place::find(&curve, number))
    }

    // The sum of two places. 38: is a setting loaded? Then the questions of the first place, and those of the second.
    pub fn add(&self, first: &GivenPlace, second: &GivenPlace) -> Result<Place, Refusal>
        ensures adds { Adds (F.meaning self.now.field) self.now first.now second.now result }
        ensures line { AddsOnLine (F.meaning self.now.field) self.now first.now second.now result }
        ensures asked { Asked (InLoaded self.now.mode) NotLoaded result }
    {
        let curve = self.curve_for(Call::Add)?;
        let first = read_place(&curve, first)?;
        let second = read_place(&curve, second)?;
        Ok(first.add(&curve, &second))
    }
}
