// Products of reduced ideals.
ghost use Rattle.ideal.specs.Parts.{Residue};
ghost use Rattle.ideal.specs.Results.{Multiplied};

use super::Ideal;
use crate::curve::Curve;
use field::Field;
use poly::Poly;

// The remainder of a·b by n, from the remainders of a and b.
fn mul_mod<F: Field>(f: &F, a: &Poly, b: &Poly, n: &Poly) -> Poly
    ensures { Residue (F.meaning f.now) a.now b.now n.now result }
{
    let (_, a) = a.div_rem(f, n);
    let (_, b) = b.div_rem(f, n);
    let (_, r) = a.mul(f, &b).div_rem(f, n);
    r
}

impl Ideal {
    // The product in standard form, and S, the divisor that is taken out: the monic greatest common divisor of Qa, Qb and Pa + Pb,
    // which is U·X·Qa + Z·Qb + Y·(Pa + Pb) for some Z. With A = Qa / S, B = Qb / S and C = (D − Pa·Pa) / Qa the product is
    // (A·B, Pa + A·T), where T = U·X·(Pb − Pa) + Y·C. Of T the remainder by B is enough, since A·B divides the difference.
    pub fn product<F: Field>(&self, curve: &Curve<F>, other: &Ideal) -> (Ideal, Poly)
        ensures { Multiplied (F.meaning curve.now.field) curve.now.setting self.now other.now result.0 result.1 }
    {
        let f = &curve.field;
        let (x, _, g) = self.q.gcd(f, &other.q);
        let (u, y, s) = g.gcd(f, &self.p.add(f, &other.p));
        let (a, _) = self.q.div_rem(f, &s);
        let (b, _) = other.q.div_rem(f, &s);
        let c = curve.cofactor(&self.p, &self.q);
        let ux = mul_mod(f, &u, &x, &b);
        let left = mul_mod(f, &ux, &other.p.sub(f, &self.p), &b);
        let right = mul_mod(f, &y, &c, &b);
        let t = left.add(f, &right);
        let p = self.p.add(f, &a.mul(f, &t));
        (Ideal::standard(f, &a.mul(f, &b), &p), s)
    }
}
