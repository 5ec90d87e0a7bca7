// Sums, opposites, differences and multiples by a constant, coefficient by coefficient up to the longer length. They are read by
// index, since a zip of the coefficients would end with the shorter; beyond it the array holds 0.
ghost use Rattle.poly.specs.Rules.{Sum, Opposite, Difference, Scaled};

use super::Poly;
use super::make::filled;
use field::Field;

impl Poly {
    pub fn add<F: Field>(&self, f: &F, other: &Poly) -> Poly
        ensures { Sum (F.meaning f.now) self.now other.now result }
    {
        filled(
            self.raw.len.max(other.raw.len),
            |i| f.add(self.raw.coeffs[i], other.raw.coeffs[i]),
        )
    }

    pub fn neg<F: Field>(&self, f: &F) -> Poly
        ensures { Opposite (F.meaning f.now) self.now result }
    {
        filled(self.raw.len, |i| f.neg(self.raw.coeffs[i]))
    }

    pub fn sub<F: Field>(&self, f: &F, other: &Poly) -> Poly
        ensures { Difference (F.meaning f.now) self.now other.now result }
    {
        filled(
            self.raw.len.max(other.raw.len),
            |i| f.add(self.raw.coeffs[i], f.neg(other.raw.coeffs[i])),
        )
    }

    // The multiple by the constant c.
    pub fn scale<F: Field>(&self, f: &F, c: u32) -> Poly
        ensures { Scaled (F.meaning f.now) c self.now result }
    {
        filled(self.raw.len, |i| f.mul(c, self.raw.coeffs[i]))
    }
}
