// The coefficient fields on examples: their laws tried at every code of small fields, and each refusal. A crate of its own,
// since a crate with tests is proved twice.
#![tactic(auto)]

// for the tests of the layers above too
pub mod broken;
#[cfg(test)]
mod laws;
#[cfg(test)]
mod tests;
