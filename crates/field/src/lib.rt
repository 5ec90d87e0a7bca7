// Finite fields on codes: the numbers below the field's size stand for its elements, 0 for zero and 1 for one.
//
// `interface` is the trait that everything above is written over, `prime` and `extension` are the fields that can be made, and
// `refusal` lists the refusals of all the rules, since the fields are the lowest layer that refuses.
#![tactic(auto)]

mod extension;
mod interface;
mod prime;
mod refusal;

pub use extension::Extension;
pub use interface::Field;
pub use prime::Prime;
pub use refusal::Refusal;
