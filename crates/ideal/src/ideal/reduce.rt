// Reduction.
ghost use Rattle.ideal.specs.Results.{Reduced};

use super::Ideal;
use crate::curve::Curve;
use field::Field;

impl Ideal {
    // Baby steps until Q has degree below m, and the sum of their lengths, none of which is positive, with the sign changed.
    // A product of reduced ideals takes at most m / 2 of them.
    pub fn reduce<F: Field>(&self, curve: &Curve<F>) -> (Ideal, usize)
        ensures { Reduced (F.meaning curve.now.field) curve.now.setting self.now result.0 result.1 }
    {
        let half = curve.setting.half();
        let mut ideal = *self;
        let mut saved: usize = 0;
        for _ in 0..half {
            if ideal.q.len() <= half {
                break;
            }
            let (next, far) = ideal.step(curve);
            saved = saved.saturating_add(ideal.q.len().saturating_sub(far));
            ideal = next;
        }
        (ideal, saved)
    }
}
