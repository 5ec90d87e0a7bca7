// The mathematics that makes two ends agree, proved over every lawful coefficient field: polynomials, ideals, and places.
//
// specs/ holds the definitions that the contracts of other crates cite, and the statements of the theorems; proofs/ holds the
// theory. The crate computes nothing: each function below names one theorem in its contract, so that the theorem is asked for.
// Above it stands the lemma that proves it, or proofs/ has the answer where the check does not close the goal from that lemma.
#![tactic(auto)]

mod ideals;
mod places;
mod polynomials;
mod worked;

pub use ideals::{
    degrees_add, equivalent_places_are_equal, products_are_one, quadratic_ring_has_norms,
    sets_decide_ideals, steps_move_ideals,
};
pub use places::{
    every_place_is_one, line_is_one, multiples_meet, places_add, places_add_their_numbers,
    places_double, places_have_multiples,
};
pub use polynomials::{
    coefficients_decide, derivative_rules, division_is_one, gcds_have_multipliers,
    leading_coefficients_multiply, lengths_add, polynomials_are_a_ring, square_factors_are_shared,
};
pub use worked::worked_cases;
