// An example of a coefficient field that is none of ours: the field of 19 elements, as the maker of a small terminal might write it.
// Sums take a comparison in place of a division, and inverses come from a table.
//
// A field of one's own takes three steps: an implementation of `Field`, whose ghost member says what the five answers mean; the proof
// that each answer is so; and the proof that the meaning keeps the laws, here in the contract of `Nineteen::new`. Whatever is promised
// of polynomials, places and ends for lawful fields then holds above it, with no further proof.
#![tactic(auto)]

mod nineteen;
#[cfg(test)]
mod tests;

pub use nineteen::Nineteen;
