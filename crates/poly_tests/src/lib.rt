// Polynomials on examples: identities of the ring on fixed and generated polynomials over six fields, and what the record does
// with a product that is too long. A crate of its own, since a crate with tests is proved twice.
#![tactic(auto)]

#[cfg(test)]
mod generated;
#[cfg(test)]
mod identities;
#[cfg(test)]
mod tests;
