// Packets on examples: every small change of a valid packet, lengths, layouts and long bodies, judged by a second reader. A
// crate of its own, since a crate with tests is proved twice.
#![tactic(auto)]

#[cfg(test)]
mod examples;
#[cfg(test)]
mod judge;
#[cfg(test)]
mod long;
#[cfg(test)]
mod tests;
// for the tests of the layers above too
pub mod worked;
#[cfg(test)]
mod written;
