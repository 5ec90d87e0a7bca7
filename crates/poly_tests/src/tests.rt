// The identities over each field, and examples worked by hand.
use crate::generated::Numbers;
use crate::identities::identities;
use field::{Extension, Field, Prime, Refusal};
use field_tests::broken::Wild;
use poly::{Poly, TooLong};
use std::test::Fail;

// The polynomial of a few coefficients, the lowest first: `try_from` of an array, which would ask for a slice of it at each call.
fn of(cs: &[u32]) -> Result<Poly, TooLong> {
    Poly::try_from(cs)
}

#[test]
fn over_3(rt: HostRuntime) -> Result<(), Fail> {
    identities(&rt, &Prime::new(3)?)
}

#[test]
fn over_7(rt: HostRuntime) -> Result<(), Fail> {
    identities(&rt, &Prime::new(7)?)
}

#[test]
fn over_9(rt: HostRuntime) -> Result<(), Fail> {
    identities(&rt, &Extension::new(Prime::new(3)?, 2)?)
}

#[test]
fn over_81(rt: HostRuntime) -> Result<(), Fail> {
    identities(&rt, &Extension::new(Extension::new(Prime::new(3)?, 2)?, 4)?)
}

#[test]
fn over_10007(rt: HostRuntime) -> Result<(), Fail> {
    identities(&rt, &Prime::new(10007)?)
}

#[test]
fn over_100140049(rt: HostRuntime) -> Result<(), Fail> {
    identities(&rt, &Extension::new(Prime::new(10007)?, 10006)?)
}

// Over 7: (x + 1)(x + 6) = x^2 + 6, and x^3 + 2 = (x^2 + 6)(x) + (x + 2).
#[test]
fn worked_products(rt: HostRuntime) -> Result<(), Fail> {
    let f = Prime::new(7)?;
    assert!(rt; of(&[1, 1])?.mul(&f, &of(&[6, 1])?) == of(&[6, 0, 1])?);
    let (q, r) = of(&[2, 0, 0, 1])?.div_rem(&f, &of(&[6, 0, 1])?);
    assert!(rt; q == of(&[0, 1])?);
    assert!(rt; r == of(&[2, 1])?);
    Ok(())
}

// Over 7 the derivative of x^7 + 3 x^2 is 6 x, since 7 is 0.
#[test]
fn worked_derivative(rt: HostRuntime) -> Result<(), Fail> {
    let f = Prime::new(7)?;
    assert!(rt; of(&[0, 0, 3, 0, 0, 0, 0, 1])?.derivative(&f) == of(&[0, 6])?);
    Ok(())
}

// Division by 0 leaves all in the remainder; 0 has no monic form but 0, and 0 and 0 have no divisor but 0.
#[test]
fn zeros(rt: HostRuntime) -> Result<(), Fail> {
    let f = Prime::new(7)?;
    let a = of(&[1, 2, 3])?;
    let (q, r) = a.div_rem(&f, &Poly::zero());
    assert!(rt; q.is_zero());
    assert!(rt; r == a);
    assert!(rt; Poly::zero().monic(&f).is_zero());
    let (_, _, g) = Poly::zero().gcd(&f, &Poly::zero());
    assert!(rt; g.is_zero());
    Ok(())
}

// Zeros at the top do not count, and 129 coefficients are too many, be they 0.
#[test]
fn lengths(rt: HostRuntime) -> Result<(), Fail> {
    assert_eq!(rt; of(&[5, 0, 2, 0, 0])?.len(), 3);
    assert_eq!(rt; of(&[0, 0])?.len(), 0);
    assert_eq!(rt; of(&[5, 0, 2, 0, 0])?.coeff(200), 0);
    assert!(rt; Poly::try_from(&[0; 128][..]).is_ok());
    assert!(rt; Poly::try_from(&[0; 129][..]).is_err());
    Ok(())
}

// x^127 times x + 1 is x^128 + x^127, of which x^127 is kept.
#[test]
fn too_long(rt: HostRuntime) -> Result<(), Fail> {
    let f = Prime::new(7)?;
    let mut top = [0u32; 128];
    top[127] = 1;
    let p = of(&top)?;
    assert!(rt; p.mul(&f, &of(&[1, 1])?) == p);
    Ok(())
}

// Over a field that breaks its laws nothing is promised but safety and a short remainder.
#[test]
fn over_no_field(rt: HostRuntime) -> Result<(), Fail> {
    let mut numbers = Numbers(3);
    let a = numbers.poly(&Wild, 128)?;
    let b = numbers.poly(&Wild, 40)?;
    let (_, r) = a.div_rem(&Wild, &b);
    assert!(rt; r.len() < 40);
    let (p, _, _) = a.gcd(&Wild, &b);
    assert!(rt; p.len() <= 128);
    assert!(rt; a.mul(&Wild, &a).len() <= 128);
    Ok(())
}
