// Division with remainder, by rows: the rest starts as the dividend, and each digit of the quotient, from the highest down,
// takes a multiple of the divisor away from it so that its top coefficient goes.
ghost use Rattle.std.specs.Prelude.{◌≡◌, ◌<◌};
ghost use Rattle.poly.specs.Rules.{Division, Undivided};
ghost use Rattle.poly.specs.Values.{size};

use super::Poly;
use super::make::normal;
use super::products::add_row;
use field::Field;

impl Poly {
    // The quotient and the remainder, which is shorter than the divisor. Division by 0 gives the quotient 0 and the
    // remainder self. (Over a field that breaks its laws the divisor's leading coefficient may have no inverse: both are 0 then.)
    pub fn div_rem<F: Field>(&self, f: &F, divisor: &Poly) -> (Poly, Poly)
        ensures less { 0 < size divisor.now → size result.1 < size divisor.now }
        ensures undivided { size divisor.now ≡ 0 → Undivided self.now result.0 result.1 }
        ensures is { Division (F.meaning f.now) self.now divisor.now result.0 result.1 }
    {
        let Some((top, lower)) = divisor.codes().split_last() else {
            return (Poly::zero(), *self);
        };
        let Some(inverse) = f.inv(*top) else {
            return (Poly::zero(), Poly::zero());
        };
        let m = lower.len();
        let digits = self.raw.len.saturating_sub(m);
        let mut quotient = [0u32; 128];
        let mut rest = self.raw.coeffs;
        // By index, since each digit works on two arrays, on `rest` from a place that moves.
        for i in (0..digits).rev() {
            let digit = f.mul(rest[i + m], inverse);
            quotient[i] = digit;
            add_row(f, &mut rest, i, f.neg(digit), lower);
            rest[i + m] = 0;
        }
        (normal(quotient, digits), normal(rest, m))
    }
}
