// What is written, byte by byte, and read back. The buffers are fixed and longer than the packets, since the writer is lent one.
use crate::examples::{answer, wide_field};
use crate::worked::{OFFER, SETTING};
use field::{Extension, Prime, Refusal};
use packet::{read_offer, read_setting, write_offer, write_setting};
use poly::Poly;
use std::array;
use std::process::Abort;
use std::test::Fail;

// `try_from` of an array, which would ask for a slice of it at each call.
fn poly(codes: &[u32]) -> Result<Poly, Fail> {
    Ok(Poly::try_from(codes)?)
}

// Sees that the packet at the front of a buffer that held 0xAA everywhere is these bytes, and that the others still do.
fn stands(rt: &impl Abort, out: &[u8], packet: &[u8]) {
    assert!(rt; out.starts_with(packet));
    assert!(rt; out.iter().skip(packet.len()).all(|b| *b == 0xAA));
}

// Sees that an answer and the buffer are right for a packet of these bytes: its length where there is room, else 35 and nothing
// written.
fn right(rt: &impl Abort, answered: Result<usize, Refusal>, out: &[u8], packet: &[u8]) {
    if out.len() >= packet.len() {
        assert_eq!(rt; answered, Ok(packet.len()));
        stands(rt, out, packet);
    } else {
        assert_eq!(rt; answer(answered), Err(35));
        stands(rt, out, &[]);
    }
}

#[test]
fn offer_in_each_buffer(rt: HostRuntime) -> Result<(), Fail> {
    let (q, p) = (poly(&[2, 1])?, poly(&[])?);
    for n in 0..26usize {
        let mut out = [0xAAu8; 25];
        let out = &mut out[0..n];
        right(&rt, write_offer(&q, &p, out), out, &OFFER);
    }
    Ok(())
}

#[test]
fn setting_in_each_buffer(rt: HostRuntime) -> Result<(), Fail> {
    let f = Prime::new(5)?;
    let d = poly(&[1, 1, 0, 0, 1])?;
    for n in 0..41usize {
        let mut out = [0xAAu8; 40];
        let out = &mut out[0..n];
        right(&rt, write_setting(&f, &d, out), out, &SETTING);
    }
    assert!(rt; read_setting(&f, &SETTING)? == Some(d));
    Ok(())
}

// Q and P have 128 codes together, over a field whose codes have four bytes.
fn there_and_back(rt: &impl Abort, f: &Extension<Prime>, q: &[u32], p: &[u32]) -> Result<(), Fail> {
    let (q, p) = (poly(q)?, poly(p)?);
    let mut out = [0u8; 523];
    assert_eq!(rt; write_offer(&q, &p, &mut out)?, 523);
    assert!(rt; read_offer(f, &out)? == (Some(q), Some(p)));
    Ok(())
}

#[test]
fn offers_come_back(rt: HostRuntime) -> Result<(), Fail> {
    let f = wide_field()?;
    let codes: [u32; 128] = array::from_fn(|k| (k as u32 + 1) * 774001);
    for n in 0..129usize {
        let (q, p) = codes.split_at(n);
        there_and_back(&rt, &f, q, p)?;
    }
    Ok(())
}

// The longest offer there is: 128 codes in each body.
#[test]
fn longest_offer(rt: HostRuntime) -> Result<(), Fail> {
    let f = Prime::new(5)?;
    let q = poly(&[3; 128])?;
    let mut out = [0xAAu8; 1100];
    assert_eq!(rt; write_offer(&q, &q, &mut out)?, 1035);
    assert!(rt; read_offer(&f, &out[0..1035])? == (Some(q), Some(q)));
    assert_eq!(rt; out[1034], 3);
    assert_eq!(rt; out[1035], 0xAA);
    Ok(())
}
