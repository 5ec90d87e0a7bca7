// Places on examples: sums, finds and multiples beside a walk along the line that takes one baby step after the other, over small
// settings whose whole ring is gone through, and over settings of degree 50. A crate of its own, since a crate with tests is
// proved twice.
#![tactic(auto)]

#[cfg(test)]
mod bytes;
#[cfg(test)]
mod large;
#[cfg(test)]
mod laws;
// for the tests of the layers above too
pub mod settings;
#[cfg(test)]
mod tests;
#[cfg(test)]
mod walker;
