// What holds of the places of a setting, as checks beside the walker. `rt` is the handle that every assert takes; a struct of it and the
// curve would be taken apart in each check.
use crate::bytes::two;
use crate::walker::{Walker, ring};
use field::Field;
use ideal::{Curve, Ideal, Setting};
use place::Place;
use poly::Poly;
use std::process::Abort;
use std::test::Fail;

// The curve of the coefficients of D, the lowest first.
pub fn curve<'a, F: Field>(field: &'a F, coeffs: &[u32]) -> Result<Curve<&'a F>, Fail> {
    let setting = Setting::new(field, &Poly::try_from(coeffs)?)?;
    Ok(Curve { field, setting })
}

// Find gives place n.
fn finds<F: Field>(rt: &impl Abort, curve: &Curve<F>, last: usize) -> Result<(), Fail> {
    let mut walker = Walker::start();
    for n in 0..last {
        let found = Place::find(curve, &two(n));
        assert!(rt; found == walker.place(&curve.setting)?, "find");
        walker.advance(curve);
    }
    Ok(())
}

// The sum of place s, where the walker stands, and place t is place s + t.
fn sums_with<F: Field>(
    rt: &impl Abort,
    curve: &Curve<F>,
    at: &Walker,
    last: usize,
) -> Result<(), Fail> {
    let setting = &curve.setting;
    let place = at.place(setting)?;
    let mut other = Walker::start();
    let mut both = *at;
    for _ in 0..last {
        let sum = place.add(curve, &other.place(setting)?);
        assert!(rt; sum == both.place(setting)?, "sum");
        other.advance(curve);
        both.advance(curve);
    }
    Ok(())
}

fn sums<F: Field>(rt: &impl Abort, curve: &Curve<F>, last: usize) -> Result<(), Fail> {
    let mut walker = Walker::start();
    for _ in 0..last {
        sums_with(rt, curve, &walker, last)?;
        walker.advance(curve);
    }
    Ok(())
}

// n times a place is what n additions make of place 0.
fn multiples_of<F: Field>(rt: &impl Abort, curve: &Curve<F>, place: &Place) {
    let mut sum = Place::origin();
    for n in 0..70usize {
        assert!(rt; place.multiple(curve, &two(n)) == sum, "multiple");
        sum = sum.add(curve, place);
    }
}

fn multiples<F: Field>(rt: &impl Abort, curve: &Curve<F>) -> Result<(), Fail> {
    let mut walker = Walker::start();
    for _ in 0..12usize {
        multiples_of(rt, curve, &walker.place(&curve.setting)?);
        walker.advance(curve);
    }
    Ok(())
}

// Multiples of the ideals (x + a, b), which need not be on the line; whether there are any.
fn multiples_off<F: Field>(rt: &impl Abort, curve: &Curve<F>, a: u32) -> Result<bool, Fail> {
    let q = Poly::try_from(&[a, 1][..])?;
    let mut any = false;
    for b in 0..curve.field.size() {
        if let Ok(ideal) = Ideal::new(curve, &q, &Poly::constant(b)) {
            multiples_of(rt, curve, &Place::new(&curve.setting, &ideal, 0)?);
            any = true;
        }
    }
    Ok(any)
}

// All of it: finds up to four times the length of the ring, sums of all pairs up to twice that length, and multiples.
pub fn whole_ring<F: Field>(
    rt: &impl Abort,
    field: &F,
    coeffs: &[u32],
    length: usize,
) -> Result<(), Fail> {
    let curve = curve(field, coeffs)?;
    assert_eq!(rt; ring(&curve), Some(length));
    finds(rt, &curve, length.min(1000) * 4)?;
    sums(rt, &curve, length.min(1000) * 2 + 1)?;
    multiples(rt, &curve)?;
    let mut any = false;
    for a in 0..field.size() {
        any |= multiples_off(rt, &curve, a)?;
    }
    assert!(rt; any, "there is an ideal (x + a, b)");
    Ok(())
}
