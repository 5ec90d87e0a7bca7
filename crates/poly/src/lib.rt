// Polynomials over any field of codes, in a record of at most 128 coefficients.
//
// The type is `Poly`; its methods take the field as their first argument. Every contract has the same form: over a lawful
// field, whatever polynomials the operands stand for, the result stands for what the ring of polynomials says (the rules are
// in specs/Rules.antt, and what a record stands for is in specs/Values.antt). Over a field that breaks its laws the results
// mean nothing, but every call stays in bounds and ends. No method asks anything of its caller.
#![tactic(auto)]

mod poly;

pub use poly::{Poly, TooLong};
