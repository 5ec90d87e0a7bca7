// The records of a place and of a giant step.
use ideal::Ideal;
use poly::Poly;

mod add;
mod find;
mod giant;
mod make;
mod multiple;

#[derive(Clone, Copy, PartialEq, Eq)]
pub struct Place {
    ideal: Ideal,
    // from 0 to m − deg Q − 1
    offset: usize,
}

// What a product of two ideals leads to.
#[derive(Clone, Copy)]
struct GiantStep {
    // the product, reduced
    ideal: Ideal,
    // S, the greatest common divisor that the product takes out
    divisor: Poly,
    // what the lengths of the steps of the reduction sum up to, with the sign changed
    saved: usize,
}
