// Whole exchanges through `converse`: over every kind of field, in settings of degree 4 to 50, with secrets of 1 to 32 bytes and offsets
// that are not 0, beside the place that the product of the own distances finds. A crate of its own, since a crate with tests is
// proved twice.
#![tactic(auto)]

#[cfg(test)]
mod agree;
#[cfg(test)]
mod scripts;
#[cfg(test)]
mod secrets;
#[cfg(test)]
mod tests;
