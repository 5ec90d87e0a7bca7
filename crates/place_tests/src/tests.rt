// A dozen small settings, two of degree 50, and examples worked by hand.
use crate::large;
use crate::laws::{curve, whole_ring};
use field::{Extension, Field, Prime, Refusal};
use ideal::Ideal;
use place::{Place, lessen};
use poly::Poly;
use std::test::Fail;

// x^4 + x + 1 over 5.
const SMALLEST: [u32; 5] = [1, 1, 0, 0, 1];

fn nine() -> Result<Extension<Prime>, Refusal> {
    Extension::new(Prime::new(3)?, 2)
}

#[test]
fn degree_4_over_5(rt: HostRuntime) -> Result<(), Fail> {
    whole_ring(&rt, &Prime::new(5)?, &SMALLEST, 9)
}

#[test]
fn degree_4_over_81(rt: HostRuntime) -> Result<(), Fail> {
    whole_ring(&rt, &Extension::new(nine()?, 4)?, &[5, 50, 79, 16, 1], 68)
}

#[test]
fn degree_6_over_3(rt: HostRuntime) -> Result<(), Fail> {
    whole_ring(&rt, &Prime::new(3)?, &[1, 0, 0, 2, 2, 1, 1], 35)
}

#[test]
fn degree_6_over_5(rt: HostRuntime) -> Result<(), Fail> {
    whole_ring(&rt, &Prime::new(5)?, &[2, 2, 1, 1, 2, 2, 1], 43)
}

#[test]
fn another_of_degree_6_over_5(rt: HostRuntime) -> Result<(), Fail> {
    whole_ring(&rt, &Prime::new(5)?, &[3, 1, 2, 3, 1, 3, 1], 31)
}

#[test]
fn degree_6_over_7(rt: HostRuntime) -> Result<(), Fail> {
    whole_ring(&rt, &Prime::new(7)?, &[6, 4, 1, 3, 3, 4, 1], 43)
}

#[test]
fn degree_6_over_9(rt: HostRuntime) -> Result<(), Fail> {
    whole_ring(&rt, &nine()?, &[3, 7, 4, 2, 4, 6, 1], 41)
}

#[test]
fn degree_8_over_3(rt: HostRuntime) -> Result<(), Fail> {
    whole_ring(&rt, &Prime::new(3)?, &[0, 1, 0, 0, 1, 1, 1, 0, 1], 57)
}

#[test]
fn degree_8_over_5(rt: HostRuntime) -> Result<(), Fail> {
    whole_ring(&rt, &Prime::new(5)?, &[4, 3, 0, 3, 3, 0, 3, 1, 1], 74)
}

#[test]
fn degree_8_over_7(rt: HostRuntime) -> Result<(), Fail> {
    whole_ring(&rt, &Prime::new(7)?, &[6, 4, 1, 2, 2, 5, 3, 6, 1], 85)
}

#[test]
fn degree_8_over_9(rt: HostRuntime) -> Result<(), Fail> {
    whole_ring(&rt, &nine()?, &[5, 6, 8, 3, 4, 5, 6, 7, 1], 55)
}

#[test]
fn degree_10_over_3(rt: HostRuntime) -> Result<(), Fail> {
    whole_ring(&rt, &Prime::new(3)?, &[1, 2, 1, 2, 0, 0, 1, 0, 2, 0, 1], 87)
}

#[test]
fn degree_50_over_10007(rt: HostRuntime) -> Result<(), Fail> {
    let f = Prime::new(10007)?;
    let curve = large::degree_50(&f)?;
    large::sums(&rt, &curve, 7);
    large::sums(&rt, &curve, 11);
    large::agreement(&rt, &curve, 5)
}

#[test]
fn degree_50_over_100140049(rt: HostRuntime) -> Result<(), Fail> {
    let f = Extension::new(Prime::new(10007)?, 10006)?;
    let curve = large::degree_50(&f)?;
    large::sums(&rt, &curve, 3);
    Ok(())
}

// Places 2 and 8 have the ideals (x + 1, 1) and (x + 1, 4), whose product is (1) with S = x + 1: the sum is (1) with offset 1.
#[test]
fn sum_with_a_divisor(rt: HostRuntime) -> Result<(), Fail> {
    let f = Prime::new(5)?;
    let curve = curve(&f, &SMALLEST)?;
    let two = Place::find(&curve, &[2]);
    let eight = Place::find(&curve, &[8]);
    let q = Poly::try_from(&[1, 1][..])?;
    assert!(rt; *two.ideal().q() == q && *two.ideal().p() == Poly::constant(1));
    assert!(rt; *eight.ideal().q() == q && *eight.ideal().p() == Poly::constant(4));
    let ten = two.add(&curve, &eight);
    assert!(rt; ten.ideal().is_one());
    assert_eq!(rt; ten.offset(), 1);
    Ok(())
}

// Place 1 is (1) with offset 1. Twice that is a gap of 2, equal to the length of the step from (1), which is taken.
#[test]
fn gap_equal_to_a_length(rt: HostRuntime) -> Result<(), Fail> {
    let f = Prime::new(5)?;
    let curve = curve(&f, &SMALLEST)?;
    let one = Place::find(&curve, &[1]);
    assert!(rt; one.ideal().is_one());
    assert_eq!(rt; one.offset(), 1);
    let two = one.add(&curve, &one);
    assert!(rt; *two.ideal().q() == Poly::try_from(&[1, 1][..])?);
    assert_eq!(rt; two.offset(), 0);
    Ok(())
}

// Zero bytes in front change nothing, and no bytes are the number 0.
#[test]
fn zeros_in_front(rt: HostRuntime) -> Result<(), Fail> {
    let f = Prime::new(5)?;
    let curve = curve(&f, &SMALLEST)?;
    let place = Place::find(&curve, &[0, 1, 44]);
    assert!(rt; place == Place::find(&curve, &[1, 44]));
    assert!(rt; Place::find(&curve, &[]) == Place::origin());
    let multiple = place.multiple(&curve, &[0, 0, 7]);
    assert!(rt; multiple == place.multiple(&curve, &[7]));
    assert!(rt; place.multiple(&curve, &[]) == Place::origin());
    Ok(())
}

// m is 2: (1) has the offsets 0 and 1, and an ideal with a Q of degree 1 has the offset 0 alone.
#[test]
fn offsets_of_a_place(rt: HostRuntime) -> Result<(), Fail> {
    let f = Prime::new(5)?;
    let curve = curve(&f, &SMALLEST)?;
    let setting = &curve.setting;
    let refused = Some(Refusal::OffsetTooLarge);
    let one = Ideal::one();
    assert!(rt; Place::new(setting, &one, 1).is_ok());
    assert_eq!(rt; Place::new(setting, &one, 2).err(), refused);
    let ideal = Ideal::new(&curve, &Poly::try_from(&[1, 1][..])?, &Poly::constant(1))?;
    assert!(rt; Place::new(setting, &ideal, 0).is_ok());
    assert_eq!(rt; Place::new(setting, &ideal, 1).err(), refused);
    assert_eq!(rt; Place::new(setting, &ideal, usize::MAX).err(), refused);
    Ok(())
}

#[test]
fn numbers_lessened(rt: HostRuntime) {
    let mut number = [1u8, 0, 0, 20];
    lessen(&mut number, 24);
    assert_eq!(rt; number, [0, 255, 255, 252]);
    lessen(&mut number, 252);
    assert_eq!(rt; number, [0, 255, 255, 0]);
    lessen(&mut number, 0xffff00);
    assert_eq!(rt; number, [0, 0, 0, 0]);
}
