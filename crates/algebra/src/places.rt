// Theorems on places, their sums and multiples, and the line.
ghost use Rattle.algebra.specs.TheoremsOfPlaces.{EveryPlaceIsOne, LineIsOne, MultiplesMeet, PlacesAdd, PlacesAddTheirNumbers, PlacesDouble, PlacesHaveMultiples};

/// The sum of any two places: one lawful place; commutative, associative, with place 0 neutral.
#[tactic(auto, using(crate::proofs::PlaceTheorems::sums_of_places))]
pub fn places_add()
    ensures { PlacesAdd }
{}

/// The line: number i is one ideal at one distance, and distances rise.
#[tactic(auto, using(crate::proofs::PlaceTheorems::line_laws))]
pub fn line_is_one()
    ensures { LineIsOne }
{}

/// Place t, for every t: there is one, and its ideal is the one closest to the left of t.
pub fn every_place_is_one()
    ensures { EveryPlaceIsOne }
{}

/// Place s plus place t is place s + t.
#[tactic(auto, using(crate::proofs::PlaceTheorems::sums_on_line))]
pub fn places_add_their_numbers()
    ensures { PlacesAddTheirNumbers }
{}

/// Doubling with a digit.
#[tactic(auto, using(crate::proofs::PlaceTheorems::doubles_on_line))]
pub fn places_double()
    ensures { PlacesDouble }
{}

/// n times a place, for every place.
#[tactic(auto, using(crate::proofs::PlaceTheorems::multiples_of_places))]
pub fn places_have_multiples()
    ensures { PlacesHaveMultiples }
{}

/// n times place t is place n·t, so that both ends meet in one place.
#[tactic(auto, using(crate::proofs::PlaceTheorems::multiples_on_line))]
pub fn multiples_meet()
    ensures { MultiplesMeet }
{}
