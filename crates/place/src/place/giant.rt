// Giant steps.
ghost use Rattle.place.specs.Results.{GiantMade, Gap};

use super::GiantStep;
use field::Field;
use ideal::{Curve, Ideal};

impl GiantStep {
    pub fn new<F: Field>(curve: &Curve<F>, a: &Ideal, b: &Ideal) -> GiantStep
        ensures { GiantMade (F.meaning curve.now.field) curve.now.setting a.now b.now result }
    {
        let (whole, divisor) = a.product(curve, b);
        let (ideal, saved) = whole.reduce(curve);
        GiantStep {
            ideal,
            divisor,
            saved,
        }
    }

    // How far the sum of two places with these offsets is past the ideal: the offsets less the shortfall − deg S − saved.
    pub fn gap(&self, offsets: usize) -> usize
        ensures { Gap self.now offsets result }
    {
        let degree = self.divisor.len().saturating_sub(1);
        offsets.saturating_add(degree).saturating_add(self.saved)
    }
}
