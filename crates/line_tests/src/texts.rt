// What is printed.
use field::Refusal;
use poly::Poly;
use script::{Fault, Problem, Shown};
use std::alloc::Global;
use std::test::Fail;

// The polynomial of these coefficients, the lowest first, as it is printed.
fn written(heap: Global, coeffs: &[u32]) -> Result<String, Fail> {
    let p = Poly::try_from(coeffs)?;
    let shown = Shown(&p);
    Ok(format!(in heap; "{shown}")?)
}

#[test]
fn polynomials(rt: HostRuntime) -> Result<(), Fail> {
    let heap = rt.alloc();
    assert_eq!(rt; written(heap, &[])?.as_str(), "0");
    assert_eq!(rt; written(heap, &[1])?.as_str(), "1");
    assert_eq!(rt; written(heap, &[3])?.as_str(), "3");
    assert_eq!(rt; written(heap, &[3, 1])?.as_str(), "x + 3");
    assert_eq!(rt; written(heap, &[0, 1])?.as_str(), "x");
    assert_eq!(rt; written(heap, &[0, 4])?.as_str(), "4x");
    assert_eq!(rt; written(heap, &[1, 1, 0, 0, 1])?.as_str(), "x^4 + x + 1");
    assert_eq!(rt; written(heap, &[4, 0, 0, 2])?.as_str(), "2x^3 + 4");
    Ok(())
}

#[test]
fn faults(rt: HostRuntime) -> Result<(), Fail> {
    let fault = Fault {
        line: 2,
        what: Problem::Refused(Refusal::Square),
    };
    let text = "line 2: refusal 4: the number whose root is added is a square in the field below";
    assert_eq!(rt; format!(in rt.alloc(); "{fault}")?.as_str(), text);
    let fault = Fault {
        line: 7,
        what: Problem::TooLarge(1000000),
    };
    let text = "line 7: a number is larger than 1000000";
    assert_eq!(rt; format!(in rt.alloc(); "{fault}")?.as_str(), text);
    Ok(())
}
