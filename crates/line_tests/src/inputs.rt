// Inputs that are refused: on which line, and why.
use field::Refusal;
use script::{Fault, Problem, read, text_of};
use std::process::Abort;
use std::test::Fail;

// That an input is refused so.
fn refused<E: Into<Problem> + Drop>(rt: &impl Abort, text: &str, line: usize, what: E) {
    let what = what.into();
    assert_eq!(rt; read(text).err(), Some(Fault { line, what }));
}

#[test]
fn fields(rt: HostRuntime) {
    refused(&rt, "prime 4", 1, Refusal::NotAModulus);
    refused(&rt, "prime 65521\nextend 17", 2, Refusal::TooLarge);
    refused(&rt, "prime 3\nextend 3", 2, Refusal::NotACode);
    refused(&rt, "prime 3\nextend 1", 2, Refusal::Square);
    // a fifth extension, above 43046721 elements
    refused(
        &rt,
        "prime 3\nextend 2\nextend 4\nextend 9\nextend 81\nextend 2",
        6,
        Refusal::TooLarge,
    );
}

#[test]
fn settings(rt: HostRuntime) {
    refused(&rt, "prime 5\nsetting 1 0 0 5 1", 2, Refusal::CodeTooLarge);
    refused(&rt, "prime 5\nsetting 0 1 0 0 1 1", 2, Refusal::LeadingZero);
    refused(&rt, "prime 5\nsetting 1 0 0 0 1 1", 2, Refusal::WrongDegree);
    refused(&rt, "prime 5\nsetting 1 0 1", 2, Refusal::WrongDegree);
    refused(
        &rt,
        "prime 5\nsetting 2 0 0 1 1",
        2,
        Refusal::SettingNotMonic,
    );
    refused(&rt, "prime 5\nsetting 1 0 0 0 0", 2, Refusal::CommonFactor);
}

#[test]
fn items(rt: HostRuntime) {
    refused(&rt, "", 1, Problem::Unfinished);
    refused(&rt, "# nothing but a comment\n\n", 3, Problem::Unfinished);
    refused(&rt, "prime 5\nsetting 1 0 0 1 1\n", 3, Problem::Unfinished);
    refused(&rt, "prime 5\nfoo 3", 2, Problem::UnknownItem);
    refused(&rt, "setting 1 0 0 1 1", 1, Problem::Misplaced);
    refused(&rt, "prime 5\nprime 5", 2, Problem::Misplaced);
    refused(
        &rt,
        "prime 5\nsetting 1 0 0 1 1\nextend 2",
        3,
        Problem::Misplaced,
    );
    refused(&rt, "prime 5\nfind 3", 2, Problem::Misplaced);
}

#[test]
fn numbers(rt: HostRuntime) {
    refused(&rt, "prime", 1, Problem::MissingNumber);
    refused(&rt, "prime 5 7", 1, Problem::ExtraWord);
    refused(&rt, "prime five", 1, Problem::NotANumber);
    refused(&rt, "prime +5", 1, Problem::NotANumber);
    refused(&rt, "prime 4294967296", 1, Problem::TooLarge(4294967295));
    refused(&rt, "prime 5\nsetting", 2, Problem::MissingNumber);
    refused(
        &rt,
        "prime 5\nsetting 1 0 0 1 1\nsteps 1000001",
        3,
        Problem::TooLarge(1000000),
    );
    refused(
        &rt,
        "prime 5\nsetting 1 0 0 1 1\nsteps 1\nadd 2",
        4,
        Problem::MissingNumber,
    );
    refused(
        &rt,
        "prime 5\nsetting 1 0 0 1 1\nsteps 1\nfind 2 8",
        4,
        Problem::ExtraWord,
    );
}

// 129 coefficients are one too many; 128 are read, and are no setting.
#[test]
fn coefficients(rt: HostRuntime) -> Result<(), Fail> {
    let zeros = " 0".repeat(rt.alloc(), 127)?;
    let text = format!(in rt.alloc(); "prime 5\nsetting 1{zeros}")?;
    refused(&rt, text.as_str(), 2, Refusal::WrongDegree);
    let text = format!(in rt.alloc(); "{text} 0")?;
    refused(&rt, text.as_str(), 2, Problem::TooManyCoefficients);
    Ok(())
}

// 256 to the power of 32 takes 33 bytes.
#[test]
fn wide_numbers(rt: HostRuntime) {
    assert!(rt;
        read(
            "prime 5\nsetting 1 0 0 1 1\nsteps 0\nfind 115792089237316195423570985008687907853269984665640564039457584007913129639935",
        ).is_ok()
    );
    refused(
        &rt,
        "prime 5\nsetting 1 0 0 1 1\nsteps 0\nfind 115792089237316195423570985008687907853269984665640564039457584007913129639936",
        4,
        Refusal::WrongSecretLength,
    );
}

#[test]
fn bytes(rt: HostRuntime) {
    let fault = Fault {
        line: 2,
        what: Problem::NotText,
    };
    assert_eq!(rt; text_of(b"prime 5\n\xff"), Err(fault));
}
