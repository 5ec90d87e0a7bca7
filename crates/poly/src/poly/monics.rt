// Monic polynomials, those whose leading coefficient is 1.
ghost use Rattle.poly.specs.Rules.{TopInverse, Monic};

use super::Poly;
use field::Field;

impl Poly {
    // The inverse of the leading coefficient; 1 for 0, which has none.
    pub fn top_inverse<F: Field>(&self, f: &F) -> u32
        ensures { TopInverse (F.meaning f.now) self.now result }
    {
        let Some(top) = self.codes().last() else {
            return 1;
        };
        f.inv(*top).unwrap_or(1)
    }

    // The multiple by a constant whose leading coefficient is 1; 0 for 0.
    pub fn monic<F: Field>(&self, f: &F) -> Poly
        ensures { Monic (F.meaning f.now) self.now result }
    {
        self.scale(f, self.top_inverse(f))
    }
}
