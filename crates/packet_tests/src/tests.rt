// Each test reads or writes packets and compares with what the rules say, or with the second reader.
use crate::examples::answer;
use crate::judge;
use crate::worked::{OFFER, SETTING};
use field::Prime;
use packet::{Kind, Sort, read, read_offer, read_setting};
use std::process::Abort;
use std::test::Fail;

// Sees that both readers answer alike to these bytes, as a packet of either sort, without and with its bodies over the field
// of 5. Says whether the bytes are accepted whole, as the one or the other.
fn alike(rt: &impl Abort, x: &[u8]) -> Result<bool, Fail> {
    let f = Prime::new(5)?;
    let setting = answer(read_setting(&f, x));
    let offer = answer(read_offer(&f, x));
    assert_eq!(rt; answer(read(Sort::Setting, x)), judge::packet(1, 2, x));
    assert_eq!(rt; answer(read(Sort::Offer, x)), judge::packet(3, 4, x));
    assert_eq!(rt; setting, judge::setting(5, x));
    assert_eq!(rt; offer, judge::offer(5, x));
    Ok(setting.is_ok() || offer.is_ok())
}

#[test]
fn worked_packets_are_accepted(rt: HostRuntime) -> Result<(), Fail> {
    assert!(rt; alike(&rt, &OFFER)?);
    assert!(rt; alike(&rt, &SETTING)?);
    Ok(())
}

#[test]
fn bodies_are_parts(rt: HostRuntime) -> Result<(), Fail> {
    let (first, second) = read(Sort::Offer, &OFFER)?;
    assert_eq!(rt; first.bytes(), &OFFER[11..19]);
    assert_eq!(rt; second.bytes().len(), 0);
    assert_eq!(rt; (first.kind(), second.kind()), (Kind::Q, Kind::P));
    let (first, second) = read(Sort::Setting, &SETTING)?;
    assert_eq!(rt; first.bytes(), &SETTING[11..15]);
    assert_eq!(rt; second.bytes(), &SETTING[15..35]);
    assert_eq!(rt; (first.kind(), second.kind()), (Kind::Size, Kind::D));
    Ok(())
}

// In how many ways a packet is accepted that may have any byte at one of its places. Counted in loops, as each turn can fail.
fn accepted_ways<const N: usize>(rt: &impl Abort, packet: [u8; N]) -> Result<u32, Fail> {
    let mut accepted: u32 = 0;
    for i in 0..N {
        for v in 0..=u8::MAX {
            let mut x = packet;
            x[i] = v;
            if alike(rt, &x)? {
                accepted = accepted.wrapping_add(1);
            }
        }
    }
    Ok(accepted)
}

// The byte itself is among the 256 of each place. Of the others those are accepted that make the code 2 another code below 5,
// or the leading code 1 another that is not 0: four and three.
#[test]
fn each_byte_of_an_offer(rt: HostRuntime) -> Result<(), Fail> {
    assert_eq!(rt; accepted_ways(&rt, OFFER)?, 19 + 4 + 3);
    Ok(())
}

// Of the others those are accepted that change one of the four lower codes, or the leading one: four each, and three.
#[test]
fn each_byte_of_a_setting(rt: HostRuntime) -> Result<(), Fail> {
    assert_eq!(rt; accepted_ways(&rt, SETTING)?, 35 + 4 * 4 + 3);
    Ok(())
}

#[test]
fn equal_bytes_are_refused(rt: HostRuntime) -> Result<(), Fail> {
    let zeros = [0u8; 70];
    let ones = [0xFFu8; 70];
    for n in 0..71usize {
        let x = &zeros[0..n];
        let y = &ones[0..n];
        assert!(rt; !alike(&rt, x)? && !alike(&rt, y)?);
        let wanted = Err(if n < 11 { 10 } else { 11 });
        assert_eq!(rt; answer(read(Sort::Offer, x)), wanted);
        assert_eq!(rt; answer(read(Sort::Setting, y)), wanted);
    }
    Ok(())
}

// A table with these places, in front of 20 more bytes.
fn placed(start1: u8, len1: u8, start2: u8, len2: u8) -> [u8; 31] {
    let mut x = [0u8; 31];
    x[0..11].copy_from_slice(&[2, 3, 0, start1, 0, len1, 4, 0, start2, 0, len2]);
    x
}

// Bodies that overlap, leave gaps or run past the end, and those that follow one another: for each length of the packet there
// are as many as places where the first can end. Four numbers, each over its own range: no slice that could be gone through.
#[test]
fn places_of_bodies(rt: HostRuntime) {
    let mut accepted: u32 = 0;
    for start1 in 10..13u8 {
        for len1 in 0..10u8 {
            for start2 in 9..22u8 {
                for len2 in 0..10u8 {
                    let x = placed(start1, len1, start2, len2);
                    accepted = accepted.wrapping_add(lengths(&rt, &x));
                }
            }
        }
    }
    assert_eq!(rt; accepted, 10 * 10);
}

// How many of the packets of 11 to 30 bytes with this front are accepted, as both readers have it: each turn is a check too.
fn lengths(rt: &impl Abort, x: &[u8; 31]) -> u32 {
    let mut accepted: u32 = 0;
    for n in 11..31usize {
        let answered = answer(read(Sort::Offer, &x[0..n]));
        assert_eq!(rt; answered, judge::packet(3, 4, &x[0..n]));
        if answered.is_ok() {
            accepted = accepted.wrapping_add(1);
        }
    }
    accepted
}

// A start or a length with a high byte reaches past the end.
#[test]
fn high_bytes_of_places(rt: HostRuntime) -> Result<(), Fail> {
    for i in [2usize, 4, 7, 9] {
        let mut x = OFFER;
        x[i] = 1;
        assert!(rt; !alike(&rt, &x)?);
        assert_eq!(rt; answer(read(Sort::Offer, &x)), Err(13));
    }
    Ok(())
}
