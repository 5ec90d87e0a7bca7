// Any script of calls at two ends.
ghost use Rattle.std.specs.Prelude.{◌≡◌, IfOk};
ghost use Rattle.dialogue.specs.Talks.{Acts, Logs, Converses, ConversesNew};

use crate::calls::perform;
use crate::script::{Event, Line, Side};
use end::End;
use field::Field;
use std::alloc::{AllocError, Global};

// Makes the call of a line at the end of its side.
fn step<F: Field>(
    left: &mut End<F>,
    right: &mut End<F>,
    line: Line,
    heap: Global,
) -> Result<Event, AllocError>
    ensures side { IfOk result (λ ev. ev.side ≡ line.side) }
    ensures acts { IfOk result (λ ev. Acts (F.meaning left.old.field) (F.meaning right.old.field) line.side line.order ev left.old right.old left.new right.new) }
    ensures over_left { left.new.field ≡ left.old.field }
    ensures over_right { right.new.field ≡ right.old.field }
{
    let Line { side, order } = line;
    match side {
        Side::Left => perform(left, side, order, heap),
        Side::Right => perform(right, side, order, heap),
    }
}

// Makes the calls of a script in their order and gives back the log: one event for each line, at that line's side.
//
// Whatever run of the rules left the two ends, the script with its log goes on with it, and agreement holds of the whole. So it does
// from ends that are newly loaded with one setting, and from those that an earlier script left. Both ends are to stand over the
// same field. Where memory runs out, the calls before that are made and those after it are not; a secret that has not been opened
// by then is let go as it is.
// The two ends stay two parameters: a caller may keep them anywhere, and a struct of two borrows would only be taken apart again.
pub fn converse<F: Field>(
    left: &mut End<F>,
    right: &mut End<F>,
    script: Vec<Line>,
    heap: Global,
) -> Result<Vec<Event>, AllocError>
    ensures logs { IfOk result (λ log. Logs script.items log.items) }
    ensures agrees { IfOk result (λ log. F.meaning right.old.field ≡ F.meaning left.old.field → Converses (F.meaning left.old.field) left.old right.old script.items log.items left.new right.new) }
    ensures newly { IfOk result (λ log. F.meaning right.old.field ≡ F.meaning left.old.field → ConversesNew (F.meaning left.old.field) left.old right.old script.items log.items left.new right.new) }
    ensures over_left { left.new.field ≡ left.old.field }
    ensures over_right { right.new.field ≡ right.old.field }
{
    let mut log = Vec::new(heap);
    for line in script {
        let event = step(left, right, line, heap)?;
        log.push(event)?;
    }
    Ok(log)
}
