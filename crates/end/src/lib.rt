// Ends: the two sides of a key agreement.
//
// An end stands over a coefficient field. It is loaded with a setting, opened with a secret, tells its offer, takes the other
// side's offer and hands out the key. `guard` zeroes secrets, `modes` says which call is allowed when, and each call has a file of
// its own under `end`.
#![tactic(auto)]

mod end;
mod guard;
mod modes;

pub use end::{End, GivenPlace};
pub use guard::Guard;
pub use modes::Mode;
