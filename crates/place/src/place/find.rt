// Place n.
ghost use Rattle.std.specs.Prelude.{◌≤◌};
ghost use Rattle.place.specs.Results.{Moved, Found};

use super::Place;
use super::add::sum;
use crate::digits::fold_digits;
use field::Field;
use ideal::Curve;

impl Place {
    // From place t to place 2·t + digit: the place is added to itself, with a gap that is greater by the digit.
    fn double<F: Field>(&self, curve: &Curve<F>, digit: u8) -> Place
        ensures { digit ≤ 1 → Moved (F.meaning curve.now.field) curve.now.setting 2 digit self.now result }
    {
        sum(curve, self, self, digit as usize)
    }

    // Place n, where `number` is n with the high byte first.
    pub fn find<F: Field>(curve: &Curve<F>, number: &[u8]) -> Place
        ensures { Found (F.meaning curve.now.field) curve.now.setting number.now result }
    {
        fold_digits(number, Place::origin(), |place, digit| {
            place.double(curve, digit)
        })
    }
}
