// The speed of the engine: place n for a number of 32 bytes in a setting of degree 50 over the prime field 10007, and a multiple
// of its ideal by another such number. Standard input has the number of rounds; what is printed tells only where they ended, so
// that it can be compared, and time is taken from outside.
#![tactic(auto)]

use field::Prime;
use ideal::{Curve, Setting};
use place::Place;
use poly::{Poly, TooLong};
use std::io;

// D = x^50 + x + 1. A program does not stand on a crate of tests, which has a function for it.
fn radicand() -> Result<Poly, TooLong> {
    let mut coeffs = [0u32; 51];
    coeffs[0] = 1;
    coeffs[1] = 1;
    coeffs[50] = 1;
    Poly::try_from(&coeffs[..])
}

// One find and one multiple for each round, each from a number of 32 bytes that depends on the round.
fn rounds(curve: &Curve<Prime>, count: u8) -> (Place, Place) {
    let mut found = Place::origin();
    let mut multiple = Place::origin();
    for round in 0..count {
        found = Place::find(curve, &[165 ^ round; 32]);
        multiple = found.multiple(curve, &[90 ^ round; 32]);
    }
    (found, multiple)
}

fn show(rt: &HostRuntime, name: &str, place: &Place) -> io::Result<()> {
    let q = place.ideal().q();
    let (degree, low, offset) = (q.len().saturating_sub(1), q.coeff(0), place.offset());
    println!(rt; "{name}: Q has degree {degree} and ends in {low}, offset {offset}")
}

fn main(rt: HostRuntime) -> io::Result<()> {
    let text = io::read_to_string(rt.alloc(), rt.stdin())?;
    let count = text.trim().parse::<u8>().unwrap_or(1);
    let Ok(field) = Prime::new(10007) else {
        return println!(rt; "no such field");
    };
    let Ok(radicand) = radicand() else {
        return println!(rt; "no such polynomial");
    };
    let Ok(setting) = Setting::new(&field, &radicand) else {
        return println!(rt; "no setting");
    };
    let (found, multiple) = rounds(&Curve { field, setting }, count);
    show(&rt, "find", &found)?;
    show(&rt, "multiple", &multiple)
}
