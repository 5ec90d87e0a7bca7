// Multiples of a place.
ghost use Rattle.std.specs.Prelude.{◌≤◌};
ghost use Rattle.place.specs.Results.{Raised, Repeated};

use super::Place;
use crate::digits::fold_digits;
use field::Field;
use ideal::Curve;

impl Place {
    // One digit more of a multiple of this place: there is none before the first digit 1, which gives the place itself; from then
    // on a digit doubles the multiple, and a digit 1 adds the place.
    fn raise<F: Field>(&self, curve: &Curve<F>, multiple: Option<Place>, digit: u8) -> Option<Place>
        ensures { digit ≤ 1 → Raised (F.meaning curve.now.field) curve.now.setting self.now 2 digit multiple result }
    {
        match (multiple, digit) {
            (None, 0) => None,
            (None, _) => Some(*self),
            (Some(m), 0) => Some(m.add(curve, &m)),
            (Some(m), _) => Some(m.add(curve, &m).add(curve, self)),
        }
    }

    // n times this place, where `number` is n with the high byte first; place 0 where n is 0.
    pub fn multiple<F: Field>(&self, curve: &Curve<F>, number: &[u8]) -> Place
        ensures { Repeated (F.meaning curve.now.field) curve.now.setting self.now number.now result }
    {
        fold_digits(
            number,
            None,
            |multiple, digit| self.raise(curve, multiple, digit),
        )
        .unwrap_or(Place::origin())
    }
}
