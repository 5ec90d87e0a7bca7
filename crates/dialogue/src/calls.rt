// One call at one end.
ghost use Rattle.std.specs.Prelude.{◌≡◌, MatchResult};
ghost use Rattle.rules.specs.Questions.{answer_of};
ghost use Rattle.end.specs.Results.{written_to};
ghost use Rattle.dialogue.specs.Scripts.{Performed};

use crate::script::{Event, Order, Side};
use end::End;
use field::{Field, Refusal};
use std::alloc::{AllocError, Global};

// The answer of a call that wrote to the front of a buffer, and the buffer cut to what was written.
fn cut(answer: Result<usize, Refusal>, mut out: Vec<u8>) -> (Result<(), Refusal>, Vec<u8>)
    ensures answer { answer_of result.0 ≡ answer_of answer }
    ensures written { result.1.items ≡ written_to out.items answer }
{
    out.truncate(answer.unwrap_or(0));
    (answer.map(|_| ()), out)
}

// Makes a call at an end. Without memory for the buffer of tell or key the call is not made.
pub fn perform<F: Field>(
    end: &mut End<F>,
    side: Side,
    order: Order,
    heap: Global,
) -> Result<Event, AllocError>
    ensures event { MatchResult result (λ ev. (ev.side ≡ side) × Performed (F.meaning end.old.field) end.old order ev end.new) (λ _. end.new ≡ end.old) }
    ensures over { end.new.field ≡ end.old.field }
{
    let (answer, written) = match order {
        Order::Load(bytes) => (end.load(&bytes), Vec::new(heap)),
        Order::Open(mut secret) => (end.open(&mut secret), secret),
        // tell and key stay two arms: one for both would have to ask again which of them to call
        Order::Tell(room) => {
            let mut out = vec![in heap; 0; room]?;
            cut(end.tell(&mut out), out)
        }
        Order::Take(bytes) => (end.take(&bytes), Vec::new(heap)),
        Order::Key(room) => {
            let mut out = vec![in heap; 0; room]?;
            cut(end.key(&mut out), out)
        }
        Order::Close => {
            end.close();
            (Ok(()), Vec::new(heap))
        }
    };
    Ok(Event {
        side,
        answer,
        written,
    })
}
