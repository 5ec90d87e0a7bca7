// Ideals from polynomials.
ghost use Rattle.std.specs.Prelude.{◌≡◌, ℕ, MatchResult, ◌==◌};
ghost use Rattle.field.specs.Meaning.{Meaning, Lawful};
ghost use Rattle.poly.specs.Values.{at, size};
ghost use Rattle.rules.specs.Settings.{Accepted, Ideals};
ghost use Rattle.ideal.specs.Results.{IdealMade, One, IsOne, Standardized};
ghost use Rattle.ideal.specs.Values.{IdealIs};

use super::Ideal;
use crate::curve::Curve;
use crate::monic::is_monic;
use field::{Field, Refusal};
use poly::Poly;

impl Ideal {
    // (1), the ideal (1, 0).
    pub fn one() -> Ideal
        ensures { One result }
    {
        Ideal {
            q: Poly::one(),
            p: Poly::zero(),
        }
    }

    // The record whose Q and P are 0, which stands for no ideal. It is no `None`, since an end that is closed overwrites its
    // ideal and its key in place, with zeros.
    pub fn cleared() -> Ideal
        ensures zero { (k : ℕ) → (at result.q k ≡ 0) × (at result.p k ≡ 0) }
        ensures none { (M : Meaning) (L : Lawful M) (A : Accepted L) (x : Ideals L A) → IdealIs L A result x → ⊥ }
    {
        let zero = Poly::zero();
        Ideal { q: zero, p: zero }
    }

    pub fn q(&self) -> &Poly
        ensures { result.now ≡ self.now.q }
    {
        &self.q
    }

    pub fn p(&self) -> &Poly
        ensures { result.now ≡ self.now.p }
    {
        &self.p
    }

    // The reduced ideal (Q, P), or the first question with the answer no: 40 Q has a degree from 0 to m − 1, 41 Q is monic,
    // 42 P has lower degree than Q, 43 Q divides D − P·P.
    pub fn new<F: Field>(curve: &Curve<F>, q: &Poly, p: &Poly) -> Result<Ideal, Refusal>
        ensures made { IdealMade (F.meaning curve.now.field) curve.now.setting q.now p.now result }
        ensures same { MatchResult result (λ a. (a.q ≡ q.now) × (a.p ≡ p.now)) (λ _. Unit) }
    {
        let len = q.len();
        if !(1..=curve.setting.half()).contains(&len) {
            return Err(Refusal::NotReduced);
        }
        if !is_monic(q) {
            return Err(Refusal::IdealNotMonic);
        }
        if p.len() >= len {
            return Err(Refusal::NotLower);
        }
        let (_, left) = curve.less_square(p).div_rem(&curve.field, q);
        if !left.is_zero() {
            return Err(Refusal::NotAnIdeal);
        }
        Ok(Ideal { q: *q, p: *p })
    }

    // Whether this is (1): the only ideal whose Q is constant.
    pub fn is_one(&self) -> bool
        ensures short { result ≡ (size self.now.q == 1) }
        ensures is { IsOne self.now result }
    {
        self.q.len() == 1
    }

    // The standard form of (Q, P): Q made monic, P replaced by its remainder by Q.
    pub(crate) fn standard<F: Field>(f: &F, q: &Poly, p: &Poly) -> Ideal
        ensures { Standardized (F.meaning f.now) q.now p.now result }
    {
        let q = q.monic(f);
        let (_, p) = p.div_rem(f, &q);
        Ideal { q, p }
    }
}
