// Dialogues: any calls, in any order, at two ends, and the log of what came of them.
//
// `script` has the calls that are to be made and the events that are logged, `calls` makes one call, and `talk` makes the
// calls of a script and says what agreement makes of their log.
#![tactic(auto)]

mod calls;
mod script;
mod talk;

pub use calls::perform;
pub use script::{Event, Line, Order, Side};
pub use talk::converse;
