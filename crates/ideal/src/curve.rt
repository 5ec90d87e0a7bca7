// The curve that ideals are computed on.
ghost use Rattle.ideal.specs.Parts.{LessSquare, Cofactor};

use crate::setting::Setting;
use field::Field;
use poly::Poly;

// The curve y² = D over a field: D's coefficients are the field's codes, and whatever is computed on ideals needs both.
#[derive(Clone, Copy, Drop)]
pub struct Curve<F> {
    pub field: F,
    pub setting: Setting,
}

impl<F: Field> Curve<F> {
    // D − P·P.
    pub(crate) fn less_square(&self, p: &Poly) -> Poly
        ensures { LessSquare (F.meaning self.now.field) self.now.setting p.now result }
    {
        let f = &self.field;
        self.setting.radicand().sub(f, &p.mul(f, p))
    }

    // (D − P·P) / Q, where Q divides D − P·P.
    pub(crate) fn cofactor(&self, p: &Poly, q: &Poly) -> Poly
        ensures { Cofactor (F.meaning self.now.field) self.now.setting p.now q.now result }
    {
        let (quotient, _) = self.less_square(p).div_rem(&self.field, q);
        quotient
    }
}
