// The greatest common divisor, with its multipliers, by Euclid's algorithm: r0 and r1 are two remainders in a row, and each
// stays a combination of the two polynomials a and b, r0 = x0 a + y0 b and r1 = x1 a + y1 b.
ghost use Rattle.poly.specs.Rules.{Common};

use super::Poly;
use field::Field;

impl Poly {
    // The multipliers p and q, and the greatest common divisor g = p self + q other, which is monic; 0 where both are 0.
    pub fn gcd<F: Field>(&self, f: &F, other: &Poly) -> (Poly, Poly, Poly)
        ensures { Common (F.meaning f.now) self.now other.now result.0 result.1 result.2 }
    {
        let mut r0 = *self;
        let mut r1 = *other;
        let mut x0 = Poly::one();
        let mut y0 = Poly::zero();
        let mut x1 = Poly::zero();
        let mut y1 = Poly::one();
        while !r1.is_zero() {
            let (q, r2) = r0.div_rem(f, &r1);
            (r0, r1) = (r1, r2);
            (x0, x1) = (x1, x0.minus_product(f, &q, &x1));
            (y0, y1) = (y1, y0.minus_product(f, &q, &y1));
        }
        let c = r0.top_inverse(f);
        (x0.scale(f, c), y0.scale(f, c), r0.scale(f, c))
    }
}
