// The extension fields: above any field of size q, by a square root w of an element n that has none there. The code of
// a + b w is a + q * b. An extension is a field again, so extensions can be piled.
//
// The files: this one declares the field, `make` makes one from the field below and n, and `ops` has the field's operations.
ghost use Rattle.std.specs.Prelude.{◌≡◌, ◌*◌, ◌≤◌};

mod make;
mod ops;

use std::alloc::AllocError;

// The extension of `base` by a square root of n; q is the size of `base`, asked once.
#[derive(Drop)]
pub struct Extension<F> {
    base: F,
    n: u32,
    q: u32,
    ghost ok: { q * q ≤ 2147483647 },
}

// An extension is copied with the field below it. A struct with an invariant derives no `Clone` for a type parameter.
impl<F: Copy> Clone for Extension<F> {
    ghost is_clone = { λ x y. x ≡ y };

    ghost is_infallible = { λ _. Unit {0} };

    fn clone(&self) -> Result<Extension<F>, AllocError> {
        Ok(*self)
    }
}

impl<F: Copy> Copy for Extension<F> {}
