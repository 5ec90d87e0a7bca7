// Scripts of whole exchanges, and what their logs have.
use dialogue::{Event, Line, Order, Side, converse};
use end::End;
use field::{Field, Refusal};
use std::alloc::{AllocError, Global};
use std::test::Fail;

pub fn at(side: Side, order: Order) -> Line {
    Line { side, order }
}

// Both ends open with their secrets and tell their offers into buffers of this length.
fn opening(left: &[u8], right: &[u8], room: usize, heap: Global) -> Result<Vec<Line>, AllocError> {
    Ok(vec![in heap;
        at(Side::Left, Order::Open(Vec::from_slice(heap, left)?)),
        at(Side::Right, Order::Open(Vec::from_slice(heap, right)?)),
        at(Side::Left, Order::Tell(room)),
        at(Side::Right, Order::Tell(room)),
    ]?)
}

// Each end takes what the other told, and both give out the key.
fn closing(told: &[Event], room: usize, heap: Global) -> Result<Vec<Line>, Fail> {
    let left = written(told, 2).ok_or("nothing told at the left")?;
    let right = written(told, 3).ok_or("nothing told at the right")?;
    Ok(vec![in heap;
        at(Side::Left, Order::Take(Vec::from_slice(heap, right)?)),
        at(Side::Right, Order::Take(Vec::from_slice(heap, left)?)),
        at(Side::Left, Order::Key(room)),
        at(Side::Right, Order::Key(room)),
    ]?)
}

// An exchange in two scripts, of which the second hands over what the first told. Gives both logs.
pub fn exchange<F: Field>(
    left: &mut End<F>,
    right: &mut End<F>,
    secrets: (&[u8], &[u8]),
    room: usize,
    heap: Global,
) -> Result<(Vec<Event>, Vec<Event>), Fail> {
    let told = converse(
        left,
        right,
        opening(secrets.0, secrets.1, room, heap)?,
        heap,
    )?;
    let log = converse(left, right, closing(&told, room, heap)?, heap)?;
    Ok((told, log))
}

// What the event at an index wrote.
pub fn written(log: &[Event], i: usize) -> Option<&[u8]> {
    log.get(i).map(|event| event.written.as_slice())
}

// The answer of the event at an index.
pub fn answer(log: &[Event], i: usize) -> Option<Result<(), Refusal>> {
    log.get(i).map(|event| event.answer)
}
