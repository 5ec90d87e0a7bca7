// Places on the line of reduced ideals.
//
// A place is a reduced ideal with an offset below the length of its next step. Two places are added by their product, its
// reduction and a walk over what is left; place n is found, and a place is multiplied by n, from the binary digits of n.
#![tactic(auto)]

mod digits;
mod number;
mod place;

pub use number::lessen;
pub use place::Place;
