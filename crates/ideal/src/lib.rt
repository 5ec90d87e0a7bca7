// Settings and ideals over any coefficient field.
//
// A setting is a polynomial D of even degree 2m with its root part d; an ideal is a pair (Q, P) of polynomials where Q divides
// D − P·P. The baby step leads from one reduced ideal to the next, the product multiplies two, and reduction takes baby steps
// until Q has degree below m.
#![tactic(auto)]

mod curve;
mod ideal;
mod monic;
mod setting;

pub use curve::Curve;
pub use ideal::Ideal;
pub use setting::Setting;
