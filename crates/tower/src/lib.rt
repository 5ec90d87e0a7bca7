// A coefficient field chosen at run time: a prime field with extensions piled on it. Code that knows its field when it is
// compiled uses `Prime` and `Extension` alone; a program that reads the field from its input uses this.
#![tactic(auto)]

mod pile;
mod tower;

pub use tower::Tower;
