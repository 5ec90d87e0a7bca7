// Equality. A polynomial has one record, so equal polynomials are those with equal coefficients.
ghost use Rattle.std.specs.Prelude.{◌≡◌, Decides, nat_eq};
ghost use Rattle.std.specs.Cmp.Lexicographic.{pointwise};
ghost use Rattle.std.specs.Cmp.Rules.{comparing};
ghost use Rattle.std.specs.Ordering.{on};
ghost use Rattle.std.proofs.Common.{rules};
ghost use Rattle.poly.specs.Rules.{Same};

use super::Poly;

// Written by hand, since a derived comparison would not say `same`.
impl PartialEq for Poly {
    ghost eq = { on (λ p. p.raw.coeffs) (pointwise nat_eq) };

    ghost laws = { Prim.search (comparing, rules) };

    fn eq(&self, other: &Poly) -> bool
        ensures value { result ≡ pointwise nat_eq self.now.raw.coeffs other.now.raw.coeffs }
        ensures decides { Decides result (self.now.raw.coeffs ≡ other.now.raw.coeffs) }
        ensures same { Same self.now other.now result }
    {
        self.codes() == other.codes()
    }
}

impl Eq for Poly {
    ghost laws = { Prim.search (comparing, rules) };
}
