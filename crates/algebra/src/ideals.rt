// Theorems on the ring of u + v·y and its ideals.
ghost use Rattle.algebra.specs.TheoremsOfIdeals.{DegreesAdd, EquivalentPlacesAreEqual, ProductsAreOne, QuadraticRingHasNorms, SetsDecideIdeals, StepsMoveIdeals};

/// The ring of u + v·y has no zero divisors, and its norm is multiplicative.
pub fn quadratic_ring_has_norms()
    ensures { QuadraticRingHasNorms }
{}

/// The degree at one infinite place: additive, with the box property.
#[tactic(auto, using(crate::proofs::Degrees::degree))]
pub fn degrees_add()
    ensures { DegreesAdd }
{}

/// An ideal in standard form is decided by the set of its elements.
#[tactic(auto, using(crate::proofs::IdealTheorems::ideals_as_sets))]
pub fn sets_decide_ideals()
    ensures { SetsDecideIdeals }
{}

/// The baby step of every ideal: its set equation, its length, and how the degree of Q falls.
#[tactic(auto, using(crate::proofs::IdealTheorems::baby_steps))]
pub fn steps_move_ideals()
    ensures { StepsMoveIdeals }
{}

/// The product of two ideals, from any multipliers; it is one whatever they are.
#[tactic(auto, using(crate::proofs::IdealTheorems::products_of_ideals))]
pub fn products_are_one()
    ensures { ProductsAreOne }
{}

/// Equivalence of places; lawful places that are equivalent are equal.
#[tactic(auto, using(crate::proofs::IdealTheorems::equivalence_laws))]
pub fn equivalent_places_are_equal()
    ensures { EquivalentPlacesAreEqual }
{}
