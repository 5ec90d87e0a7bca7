// What several tests share: a field, and answers by number.
use field::{Extension, Prime, Refusal};
use std::test::Fail;

// A field whose codes have four bytes.
pub fn wide_field() -> Result<Extension<Prime>, Fail> {
    Ok(Extension::new(Prime::new(10007)?, 10006)?)
}

// Whether it is accepted, or the number of its refusal: the second reader refuses by number.
pub fn answer<T: Drop>(r: Result<T, Refusal>) -> Result<(), u16> {
    r.map(|_| ()).map_err(Refusal::number)
}
