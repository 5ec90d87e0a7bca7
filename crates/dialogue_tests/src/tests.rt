// Exchanges over every kind of field; and exchanges and calls out of turn in the smallest setting.
use crate::agree::{agree, loaded};
use crate::scripts::{answer, at, exchange, written};
use dialogue::{Event, Order, Side, converse};
use field::{Extension, Prime, Refusal};
use packet_tests::worked::SETTING;
use std::alloc::Global;
use std::test::Fail;

// The offer of (x, 1).
const KEY: [u8; 23] = [
    2, 3, 0, 11, 0, 8, 4, 0, 19, 0, 4, 0, 0, 0, 1, 0, 0, 0, 0, 0, 0, 0, 1,
];

// What came of the calls behind the tells, in an exchange with secrets of one byte.
fn exchanged(left: u8, right: u8, heap: Global) -> Result<Vec<Event>, Fail> {
    let mut one = loaded(Prime::new(5)?, &SETTING)?;
    let mut other = loaded(Prime::new(5)?, &SETTING)?;
    let (_, log) = exchange(&mut one, &mut other, (&[left], &[right]), 64, heap)?;
    Ok(log)
}

#[test]
fn equal_keys(rt: HostRuntime) -> Result<(), Fail> {
    let heap = rt.alloc();
    let log = exchanged(5, 3, heap)?;
    assert_eq!(rt; log.len(), 4);
    assert_eq!(rt; answer(&log, 0), Some(Ok(())));
    assert_eq!(rt; answer(&log, 1), Some(Ok(())));
    assert!(rt; written(&log, 2) == Some(&KEY[..]));
    assert!(rt; written(&log, 3) == Some(&KEY[..]));
    Ok(())
}

#[test]
fn trivial_key(rt: HostRuntime) -> Result<(), Fail> {
    let log = exchanged(3, 3, rt.alloc())?;
    assert_eq!(rt; answer(&log, 0), Some(Err(Refusal::TrivialKey)));
    assert_eq!(rt; answer(&log, 1), Some(Err(Refusal::TrivialKey)));
    assert_eq!(rt; answer(&log, 2), Some(Err(Refusal::NotKeyed)));
    assert_eq!(rt; answer(&log, 3), Some(Err(Refusal::NotKeyed)));
    Ok(())
}

// Secrets of both sides over ten prime fields.
#[test]
fn prime_fields(rt: HostRuntime) -> Result<(), Fail> {
    let heap = rt.alloc();
    let mut some = false;
    for (p, degree, left, right) in [
        (3, 6, 1, 2),
        (5, 6, 2, 1),
        (7, 4, 32, 32),
        (11, 10, 3, 31),
        (13, 12, 32, 2),
        (17, 14, 8, 8),
        (251, 26, 16, 17),
        (10007, 50, 32, 31),
        (65521, 20, 4, 32),
        (100003, 34, 20, 5),
    ] {
        some |= agree(&rt, Prime::new(p)?, degree, (left, right), heap)?;
    }
    assert!(rt; some, "secrets that are not their own distances");
    Ok(())
}

#[test]
fn extensions(rt: HostRuntime) -> Result<(), Fail> {
    let heap = rt.alloc();
    for (p, n, degree, left, right) in [
        (3, 2, 6, 5, 6),
        (7, 3, 8, 32, 1),
        (251, 250, 4, 9, 32),
        (10007, 10006, 50, 32, 32),
    ] {
        let field = Extension::new(Prime::new(p)?, n)?;
        let _ = agree(&rt, field, degree, (left, right), heap)?;
    }
    let field = Extension::new(Extension::new(Prime::new(3)?, 2)?, 4)?;
    let _ = agree(&rt, field, 16, (12, 32), heap)?;
    Ok(())
}

// Refused calls change nothing, a closed end forgets, and find then gives place 10, which is (1) with the offset 1.
#[test]
fn out_of_turn(rt: HostRuntime) -> Result<(), Fail> {
    let heap = rt.alloc();
    let mut left = loaded(Prime::new(5)?, &SETTING)?;
    let mut right = loaded(Prime::new(5)?, &SETTING)?;
    let script = vec![in heap;
        at(Side::Left, Order::Tell(64)),
        at(Side::Left, Order::Open(vec![in heap; 1]?)),
        at(Side::Left, Order::Open(vec![in heap; 0, 5]?)),
        at(Side::Left, Order::Open(vec![in heap; 3]?)),
        at(Side::Left, Order::Tell(18)),
        at(Side::Left, Order::Close),
        at(Side::Left, Order::Tell(64)),
    ]?;
    let log = converse(&mut left, &mut right, script, heap)?;
    for (i, wanted) in [
        Err(Refusal::NothingToTell),
        Err(Refusal::TrivialSecret),
        Ok(()),
        Err(Refusal::NotReady),
        Err(Refusal::BufferTooSmall),
        Ok(()),
        Err(Refusal::NothingToTell),
    ]
    .into_iter()
    .enumerate()
    {
        assert_eq!(rt; answer(&log, i), Some(wanted));
    }
    assert!(rt; written(&log, 2) == Some([0, 0].as_slice()));
    let place = left.find(&[10])?;
    assert!(rt; place.ideal().is_one());
    assert_eq!(rt; place.offset(), 1);
    Ok(())
}
