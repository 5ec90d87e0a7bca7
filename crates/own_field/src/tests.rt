// An exchange above the example field. Its buffers are fixed, as a terminal with no heap has them.
use crate::Nineteen;
use end::End;
use packet::write_setting;
use poly::Poly;
use std::test::Fail;

// An end that is newly loaded with x^6 + x + 1.
fn loaded() -> Result<End<Nineteen>, Fail> {
    let field = Nineteen::new();
    let radicand = Poly::try_from(&[1, 1, 0, 0, 0, 0, 1][..])?;
    let mut packet = [0u8; 64];
    let len = write_setting(&field, &radicand, &mut packet)?;
    let mut end = End::new(field);
    end.load(&packet[0..len.min(64)])?;
    Ok(end)
}

#[test]
fn keys_are_equal(rt: HostRuntime) -> Result<(), Fail> {
    let mut left = loaded()?;
    let mut right = loaded()?;
    left.open(&mut [9, 1, 200, 33])?;
    right.open(&mut [0, 101])?;
    let mut offer = [0u8; 64];
    let len = left.tell(&mut offer)?;
    right.take(&offer[0..len.min(64)])?;
    let len = right.tell(&mut offer)?;
    left.take(&offer[0..len.min(64)])?;
    let mut mine = [0u8; 64];
    let mut theirs = [0u8; 64];
    assert_eq!(rt; left.key(&mut mine)?, right.key(&mut theirs)?);
    assert!(rt; mine[..] == theirs[..]);
    Ok(())
}
