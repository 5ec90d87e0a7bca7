// Each test makes fields and tries what the rules say of them.
use crate::broken::{NoProducts, Wild};
use crate::laws::{inverses, laws};
use field::{Extension, Field, Prime, Refusal};
use std::test::Fail;

// The field of 81 elements: 3, extended by a root of 2 and then by a root of the element with code 4.
fn eighty_one() -> Result<Extension<Extension<Prime>>, Refusal> {
    Extension::new(Extension::new(Prime::new(3)?, 2)?, 4)
}

#[test]
fn prime_fields_are_lawful(rt: HostRuntime) -> Result<(), Fail> {
    for p in [3, 5, 7, 11, 13, 17] {
        let f = Prime::new(p)?;
        assert_eq!(rt; f.size(), p);
        assert!(rt; laws(&f));
    }
    Ok(())
}

#[test]
fn inverses_modulo_251(rt: HostRuntime) -> Result<(), Fail> {
    let f = Prime::new(251)?;
    assert_eq!(rt; f.size(), 251);
    assert!(rt; inverses(&f));
    Ok(())
}

#[test]
fn extensions_are_lawful(rt: HostRuntime) -> Result<(), Fail> {
    for (p, n) in [(3, 2), (5, 2), (7, 3)] {
        let f = Extension::new(Prime::new(p)?, n)?;
        assert_eq!(rt; f.size(), p * p);
        assert!(rt; laws(&f));
    }
    Ok(())
}

#[test]
fn extensions_pile(rt: HostRuntime) -> Result<(), Fail> {
    let f = eighty_one()?;
    assert_eq!(rt; f.size(), 81);
    assert!(rt; laws(&f));
    let above = Extension::new(f, 9)?;
    assert_eq!(rt; above.size(), 6561);
    assert!(rt; inverses(&above));
    Ok(())
}

#[test]
fn nine_elements(rt: HostRuntime) -> Result<(), Fail> {
    let f = Extension::new(Prime::new(3)?, 2)?;
    assert_eq!(rt; f.mul(4, 4), 6);
    assert_eq!(rt; f.inv(4), Some(5));
    Ok(())
}

#[test]
fn only_the_moduli(rt: HostRuntime) {
    for p in [0, 1, 2, 4, 9, 19, 10006, 100001, u32::MAX] {
        assert_eq!(rt; Prime::new(p).err(), Some(Refusal::NotAModulus));
    }
    for p in [3, 5, 7, 11, 13, 17, 251, 10007, 65521, 100003] {
        assert!(rt; Prime::new(p).is_ok());
    }
}

#[test]
fn extensions_refused(rt: HostRuntime) -> Result<(), Fail> {
    let f = Prime::new(10007)?;
    assert_eq!(rt;
        Extension::new(Prime::new(65521)?, 70000).err(),
        Some(Refusal::TooLarge)
    );
    assert_eq!(rt; Extension::new(f, 10007).err(), Some(Refusal::NotACode));
    assert!(rt; Extension::new(f, 10006).is_ok());
    assert_eq!(rt;
        Extension::new(Prime::new(3)?, 1).err(),
        Some(Refusal::Square)
    );
    assert_eq!(rt;
        Extension::new(eighty_one()?, 0).err(),
        Some(Refusal::Square)
    );
    Ok(())
}

#[test]
fn broken_fields_are_told_apart(rt: HostRuntime) -> Result<(), Fail> {
    let f = NoProducts(Prime::new(5)?);
    assert!(rt; !laws(&f));
    assert!(rt; !inverses(&f));
    assert!(rt; !laws(&Wild));
    Ok(())
}

#[test]
fn extensions_of_a_broken_field_stay_in_bounds(rt: HostRuntime) -> Result<(), Fail> {
    let f = Extension::new(Wild, 3)?;
    assert_eq!(rt; f.size(), 49);
    assert_eq!(rt; f.add(8, 9), 0);
    assert_eq!(rt; f.mul(8, 9), 0);
    assert_eq!(rt; f.inv(8), Some(0));
    Ok(())
}

#[test]
fn refusals_have_words(rt: HostRuntime) -> Result<(), Fail> {
    let words = Refusal::NotAModulus.to_string(rt.alloc())?;
    assert_eq!(rt; words.as_str(), "the modulus is none of the ten");
    Ok(())
}
