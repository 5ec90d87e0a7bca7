// Settings of degree 50 and numbers of 32 bytes.
use crate::bytes::{added, half_large};
use crate::settings::with_term;
use field::Field;
use ideal::Curve;
use place::{Place, lessen};
use std::process::Abort;
use std::test::Fail;

// The curve of the first accepted setting of x^50 + i·x + 1. The tests of exchanges look over another range; a search for both did not
// prove what it finds.
pub fn degree_50<F: Field>(field: &F) -> Result<Curve<&F>, Fail> {
    let setting = (1..20u32)
        .find_map(|i| with_term(field, 50, i))
        .ok_or("no setting among the first")?;
    Ok(Curve { field, setting })
}

// find(a) + find(b) = find(a + b)
pub fn sums<F: Field>(rt: &impl Abort, curve: &Curve<F>, seed: u32) {
    let a = half_large(seed);
    let b = half_large(seed ^ 1);
    let left = Place::find(curve, &a);
    let right = Place::find(curve, &b);
    let both = Place::find(curve, &added(&a, &b));
    assert!(rt; left.ideal() != right.ideal());
    assert!(rt; left.add(curve, &right) == both);
    assert!(rt; right.add(curve, &left) == both);
}

// Each takes the ideal of the other as many times as the own ideal is far, and both arrive at one ideal.
pub fn agreement<F: Field>(rt: &impl Abort, curve: &Curve<F>, seed: u32) -> Result<(), Fail> {
    let setting = &curve.setting;
    let mut a = half_large(seed);
    let mut b = half_large(seed ^ 1);
    let left = Place::find(curve, &a);
    let right = Place::find(curve, &b);
    lessen(&mut a, left.offset());
    lessen(&mut b, right.offset());
    let left = Place::new(setting, left.ideal(), 0)?;
    let right = Place::new(setting, right.ideal(), 0)?;
    assert!(rt; Place::find(curve, &a) == left, "the own distance");
    let here = right.multiple(curve, &a);
    let there = left.multiple(curve, &b);
    assert!(rt; !here.ideal().is_one());
    assert!(rt; here == there);
    Ok(())
}
