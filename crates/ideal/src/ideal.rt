// The record of an ideal (Q, P). It has no Debug, nor has a place, so that no key is printed by mistake: an agreed key is an ideal.
use poly::Poly;

mod make;
mod product;
mod reduce;
mod step;

#[derive(Clone, Copy, PartialEq, Eq)]
pub struct Ideal {
    q: Poly,
    p: Poly,
}
