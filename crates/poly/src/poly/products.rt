// Products, by rows: for each coefficient c of the one factor, at place i, the row c x^i b is added to the result in place.
ghost use Rattle.std.specs.Prelude.{◌+◌, ◌≤◌, length};
ghost use Rattle.poly.specs.Rows.{Row, Added};
ghost use Rattle.poly.specs.Rules.{LowProduct, Product, LowLess, Less};

use super::Poly;
use super::make::normal;
use field::Field;

// Adds c x^i times the row's coefficients to `out`.
pub(super) fn add_row<F: Field>(f: &F, out: &mut [u32; 128], i: usize, c: u32, row: &[u32])
    requires { i + length row.now ≤ 128 }
    ensures { Row (F.meaning f.now) out.old i c row.now out.new }
{
    // By index: of what is written through a zip with `iter_mut` a proof knows nothing afterwards, and with its `enumerate` the
    // row would be read by index instead.
    for (k, b) in row.iter().enumerate() {
        out[i + k] = f.add(out[i + k], f.mul(c, *b));
    }
}

// Adds the product of a and b to `out`, as far as `out` goes.
fn add_product<F: Field>(f: &F, out: &mut [u32; 128], a: &Poly, b: &Poly)
    ensures { Added (F.meaning f.now) out.old a.now b.now out.new }
{
    for (i, c) in a.codes().iter().enumerate() {
        let n = b.len().min(128 - i);
        add_row(f, out, i, *c, &b.codes()[..n]);
    }
}

impl Poly {
    // The product. A product of more than 128 coefficients does not fit: the 128 lowest are kept, and the others are lost.
    pub fn mul<F: Field>(&self, f: &F, other: &Poly) -> Poly
        ensures low { LowProduct (F.meaning f.now) self.now other.now result }
        ensures exact { Product (F.meaning f.now) self.now other.now result }
    {
        let mut out = [0u32; 128];
        add_product(f, &mut out, self, other);
        let end = (self.raw.len + other.raw.len).min(128);
        normal(out, end)
    }

    // What is left of this polynomial when the product of p and b is taken away, with the same bound on the product. It is
    // found by adding the product of -p and b.
    pub fn minus_product<F: Field>(&self, f: &F, p: &Poly, b: &Poly) -> Poly
        ensures low { LowLess (F.meaning f.now) self.now p.now b.now result }
        ensures exact { Less (F.meaning f.now) self.now p.now b.now result }
    {
        let opposite = p.neg(f);
        let mut out = self.raw.coeffs;
        add_product(f, &mut out, &opposite, b);
        let end = (opposite.raw.len + b.raw.len).min(128).max(self.raw.len);
        normal(out, end)
    }
}
