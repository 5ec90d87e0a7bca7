// One exchange, and what it must come to.
use crate::scripts::{answer, exchange, written};
use crate::secrets::{drawn, product};
use end::End;
use field::{Field, Refusal};
use ideal::Curve;
use packet::{write_offer, write_setting};
use place::{Place, lessen};
use place_tests::settings::with_term;
use std::alloc::{AllocError, Global};
use std::process::Abort;
use std::test::Fail;

// Enough for every offer: 11 bytes, 25 codes of Q and 24 of P.
const ROOM: usize = 207;

// How far an end walks: its secret, less the offset of the place of the secret.
#[derive(Clone, Copy)]
struct Walk {
    distance: [u8; 32],
    offset: usize,
}

impl Walk {
    fn new<F: Field>(curve: &Curve<F>, secret: &[u8]) -> Walk {
        let offset = Place::find(curve, secret).offset();
        let mut distance = [0u8; 32];
        if secret.len() <= 32 {
            distance[32 - secret.len()..32].copy_from_slice(secret);
        }
        lessen(&mut distance, offset);
        Walk { distance, offset }
    }
}

// An end that is newly loaded with the packet of a setting.
pub fn loaded<F: Field + Drop>(field: F, packet: &[u8]) -> Result<End<F>, Refusal> {
    let mut end = End::new(field);
    end.load(packet)?;
    Ok(end)
}

// A secret of this length whose ideal is not (1), with an offset that is not 0 if there is one among the first. In a large field
// there is hardly one, and the first secret does. A loop, as the last secret that will do is kept while a better one is looked for.
fn secret<F: Field>(
    curve: &Curve<F>,
    seed: u32,
    len: usize,
    heap: Global,
) -> Result<Vec<u8>, AllocError> {
    let len = len.min(32);
    let mut chosen = drawn(seed);
    for i in 1..12u32 {
        let drawn = drawn(seed.wrapping_add(i));
        let place = Place::find(curve, &drawn[0..len]);
        if !place.ideal().is_one() {
            chosen = drawn;
            if place.offset() > 0 || curve.field.size() > 1000 {
                break;
            }
        }
    }
    Vec::from_slice(heap, &chosen[0..len])
}

// The bytes of the key that both ends must have; none if it is (1).
fn key<F: Field>(
    curve: &Curve<F>,
    left: &Walk,
    right: &Walk,
    heap: Global,
) -> Result<Option<Vec<u8>>, Fail> {
    let place = Place::find(curve, &product(&left.distance, &right.distance));
    if place.ideal().is_one() {
        return Ok(None);
    }
    // A writer lends a buffer, and says how much of it is the packet.
    let mut out = vec![in heap; 0; ROOM]?;
    let len = write_offer(place.ideal().q(), place.ideal().p(), &mut out)?;
    out.truncate(len);
    Ok(Some(out))
}

// Two ends over one field, with secrets of these lengths: both get the key that the product of their own distances has, or both
// answer 45. Tells whether an offset was not 0. The heap comes beside `rt`: below a test's own function `&HostRuntime` may not abort,
// and `&impl Abort` has no heap.
pub fn agree<F: Field + Copy + Drop>(
    rt: &impl Abort,
    field: F,
    degree: usize,
    lengths: (usize, usize),
    heap: Global,
) -> Result<bool, Fail> {
    // the first accepted setting of x^degree + i·x + 1
    let setting = (1..field.size().min(40))
        .find_map(|i| with_term(&field, degree, i))
        .ok_or("no setting among the first")?;
    let curve = Curve { field, setting };
    // the same with the setting's packet
    let mut packet = vec![in heap; 0; 256]?;
    let len = write_setting(&field, setting.radicand(), &mut packet)?;
    packet.truncate(len);
    let a = secret(&curve, 0, lengths.0, heap)?;
    let b = secret(&curve, 100, lengths.1, heap)?;
    let mut left = loaded(field, &packet)?;
    let mut right = loaded(field, &packet)?;
    let (told, log) = exchange(&mut left, &mut right, (&a, &b), ROOM, heap)?;
    assert_eq!(rt; answer(&told, 0), Some(Ok(())));
    assert_eq!(rt; answer(&told, 1), Some(Ok(())));
    let mine = Walk::new(&curve, &a);
    let theirs = Walk::new(&curve, &b);
    let (wanted, bytes) = match key(&curve, &mine, &theirs, heap)? {
        Some(bytes) => (Ok(()), bytes),
        None => (Err(Refusal::TrivialKey), Vec::new(heap)),
    };
    assert_eq!(rt; answer(&log, 0), Some(wanted));
    assert_eq!(rt; answer(&log, 1), Some(wanted));
    assert!(rt; written(&log, 2) == Some(bytes.as_slice()));
    assert!(rt; written(&log, 3) == Some(bytes.as_slice()));
    Ok(mine.offset > 0 || theirs.offset > 0)
}
