// Derivatives. The factor k + 1 of a derivative's coefficient is an element of the field: 1 added k + 1 times.
ghost use Rattle.poly.specs.Rules.{Derivative};

use super::Poly;
use super::make::normal;
use field::Field;

impl Poly {
    pub fn derivative<F: Field>(&self, f: &F) -> Poly
        ensures { Derivative (F.meaning f.now) self.now result }
    {
        let Some((_, higher)) = self.codes().split_first() else {
            return Poly::zero();
        };
        let mut coeffs = [0u32; 128];
        let mut factor = 0;
        for (k, c) in higher.iter().enumerate() {
            factor = f.add(1, factor);
            coeffs[k] = f.mul(factor, *c);
        }
        normal(coeffs, higher.len())
    }
}
