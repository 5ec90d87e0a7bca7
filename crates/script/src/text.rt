// The text of an input.
ghost use Rattle.std.specs.Prelude.{◌≡◌, IsUtf8, MatchResult};

use crate::fault::{Fault, Problem};
use std::str::from_utf8;

// The number of the line that follows these bytes.
fn line_after(bytes: &[u8]) -> usize {
    bytes
        .iter()
        .filter(|b| **b == b'\n')
        .count()
        .saturating_add(1)
}

// What was read as text; the fault is on the line where it stops to be text.
pub fn text_of(bytes: &[u8]) -> Result<&str, Fault>
    ensures { MatchResult result (λ s. s.now ≡ bytes.now) (λ e. (e.what ≡ Problem.NotText) × (IsUtf8 bytes.now → ⊥)) }
{
    from_utf8(bytes).map_err(|e| Fault {
        line: line_after(&bytes[..e.valid_up_to()]),
        what: Problem::NotText,
    })
}
