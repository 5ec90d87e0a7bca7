// The baby step.
ghost use Rattle.ideal.specs.Results.{Stepped};

use super::Ideal;
use crate::curve::Curve;
use field::Field;

impl Ideal {
    // The next ideal, and how far the step goes: the degree of P' + d, plus one. The length of the step is that less the
    // number of coefficients of Q; for a reduced ideal it is m less the degree of Q. The next ideal is the standard form of
    // (Q', P'), with P' = d − r, where r is the remainder of P + d by Q, and Q' = (D − P'·P') / Q.
    pub fn step<F: Field>(&self, curve: &Curve<F>) -> (Ideal, usize)
        ensures { Stepped (F.meaning curve.now.field) curve.now.setting self.now result.0 result.1 }
    {
        let f = &curve.field;
        let root = curve.setting.root();
        let (_, r) = self.p.add(f, root).div_rem(f, &self.q);
        let p = root.sub(f, &r);
        let q = curve.cofactor(&p, &self.q);
        let far = p.add(f, root).len();
        (Ideal::standard(f, &q, &p), far)
    }
}
