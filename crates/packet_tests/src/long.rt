// Bodies about as long as the record of a polynomial, and as long as a body can be. Over the field of 10007 * 10007 elements,
// whose codes have four bytes.
use crate::examples::{answer, wide_field};
use crate::judge;
use field::{Extension, Field, Prime};
use packet::{Sort, read, read_offer, read_poly};
use poly::Poly;
use std::process::Abort;
use std::test::Fail;

// Sees that there is a record just where there are at most 128 codes.
fn held(rt: &impl Abort, found: Option<Poly>, bytes: usize) {
    match found {
        Some(p) => {
            assert!(rt; bytes <= 512);
            assert_eq!(rt; 4 * p.len(), bytes);
        }
        None => assert!(rt; bytes > 512),
    }
}

// Sees that a body is answered as wanted, and that the second reader has it so.
fn answered(rt: &impl Abort, f: &Extension<Prime>, body: &[u8], wanted: Result<(), u16>) {
    assert!(rt; body.len() < 65536);
    assert_eq!(rt; judge::body(f.size(), body, 0, body.len() as u16), wanted);
    let found = read_poly(f, body);
    assert_eq!(rt; answer(found), wanted);
    if let Ok(found) = found {
        held(rt, found, body.len());
    }
}

// Bytes 1, so that each code is below the size, with a last code that is too large where `large`, and with a first code 0 where
// `zero`: two changes that are made or not, in all four ways. The longest array, of which a test takes `n` bytes.
fn codes(n: usize, large: bool, zero: bool) -> [u8; 520] {
    let mut x = [1u8; 520];
    if large && n >= 4 && n <= 520 {
        x[n - 4] = 0xFF;
    }
    if zero {
        x[0..4].fill(0);
    }
    x
}

// Bodies of `n` bytes: as they should be, with a leading 0, with a last code that is too large, and with both.
fn variants(rt: &impl Abort, f: &Extension<Prime>, n: usize) {
    assert!(rt; n <= 520);
    for (large, zero, whole) in [
        (false, false, Ok(())),
        (true, false, Err(15)),
        (false, true, Err(16)),
        (true, true, Err(15)),
    ] {
        let wanted = if n % 4 != 0 {
            Err(14)
        } else if n == 0 {
            Ok(())
        } else if n == 4 && zero {
            Err(16)
        } else {
            whole
        };
        answered(rt, f, &codes(n, large, zero)[0..n], wanted);
    }
}

#[test]
fn bodies_about_a_record(rt: HostRuntime) -> Result<(), Fail> {
    let f = wide_field()?;
    for n in [0usize, 4, 5] {
        variants(&rt, &f, n);
    }
    for n in 508..521usize {
        variants(&rt, &f, n);
    }
    Ok(())
}

// The codes of a record stand at their degrees.
#[test]
fn codes_go_down(rt: HostRuntime) -> Result<(), Fail> {
    let f = wide_field()?;
    let body = [0, 0, 0, 3, 0, 0, 2, 1, 5, 0, 0, 7];
    let p = read_poly(&f, &body)?.ok_or("no record")?;
    assert_eq!(rt; p.codes(), [83886087, 513, 3].as_slice());
    Ok(())
}

// The longest bodies there are: 65535 bytes are no whole number of codes, 65532 are.
#[test]
fn longest_bodies(rt: HostRuntime) -> Result<(), Fail> {
    let f = wide_field()?;
    let mut x = [1u8; 65535];
    answered(&rt, &f, &x, Err(14));
    answered(&rt, &f, &x[0..65532], Ok(()));
    x[65528] = 0xFF;
    answered(&rt, &f, &x[0..65532], Err(15));
    x[65528] = 1;
    x[0..4].fill(0);
    answered(&rt, &f, &x[0..65532], Err(16));
    Ok(())
}

// A packet with an empty first body, and a second one of 65280 bytes and `len`.
fn longest(len: u8) -> [u8; 65546] {
    let mut x = [1u8; 65546];
    x[0..11].copy_from_slice(&[2, 3, 0, 11, 0, 0, 4, 0, 11, 255, len]);
    x
}

#[test]
fn longest_packets(rt: HostRuntime) -> Result<(), Fail> {
    let f = wide_field()?;
    let x = longest(255);
    assert_eq!(rt; read(Sort::Offer, &x)?.1.bytes().len(), 65535);
    refused(&rt, &f, &x, 14);
    refused(&rt, &f, &x[0..65545], 13);
    let y = longest(252);
    refused(&rt, &f, &y, 13);
    let (_, p) = read_offer(&f, &y[0..65543])?;
    held(&rt, p, 65532);
    Ok(())
}

// Sees that both readers refuse an offer with this number.
fn refused(rt: &impl Abort, f: &Extension<Prime>, x: &[u8], number: u16) {
    assert_eq!(rt; judge::offer(f.size(), x), Err(number));
    assert_eq!(rt; answer(read_offer(f, x)), Err(number));
}
