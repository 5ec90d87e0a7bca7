// Theorems on polynomials over a coefficient field.
ghost use Rattle.algebra.specs.TheoremsOfPolynomials.{CoefficientsDecide, DerivativeRules, DivisionIsOne, GcdsHaveMultipliers, LeadingCoefficientsMultiply, LengthsAdd, PolynomialsAreARing, SquareFactorsAreShared};

/// Polynomials are a commutative ring, with sums and products by their coefficients.
pub fn polynomials_are_a_ring()
    ensures { PolynomialsAreARing }
{}

/// Polynomials with the same coefficients are equal.
#[tactic(auto, using(crate::proofs::PolynomialTheorems::coefficients))]
pub fn coefficients_decide()
    ensures { CoefficientsDecide }
{}

/// Lengths of sums and products; there are no zero divisors.
#[tactic(auto, using(crate::proofs::PolynomialTheorems::lengths))]
pub fn lengths_add()
    ensures { LengthsAdd }
{}

/// Leading coefficients are not 0, and multiply.
#[tactic(auto, using(crate::proofs::PolynomialTheorems::leading))]
pub fn leading_coefficients_multiply()
    ensures { LeadingCoefficientsMultiply }
{}

/// Division with remainder: there is one quotient and one remainder.
#[tactic(auto, using(crate::proofs::PolynomialTheorems::divisions))]
pub fn division_is_one()
    ensures { DivisionIsOne }
{}

/// Greatest common divisors, with multipliers.
#[tactic(auto, using(crate::proofs::PolynomialTheorems::gcds))]
pub fn gcds_have_multipliers()
    ensures { GcdsHaveMultipliers }
{}

/// The derivative: its coefficients, and the rules for sums and products.
#[tactic(auto, using(crate::proofs::PolynomialTheorems::derivatives))]
pub fn derivative_rules()
    ensures { DerivativeRules }
{}

/// A square factor of a polynomial is one of its derivative too.
#[tactic(auto, using(crate::proofs::PolynomialTheorems::square_factors))]
pub fn square_factors_are_shared()
    ensures { SquareFactorsAreShared }
{}
