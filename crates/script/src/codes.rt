// The codes of a polynomial as an input gives them, the one of the highest degree first.
ghost use Rattle.std.specs.Prelude.{◌≡◌, ◌≤◌, length};

mod ops;

// An array with its length beside it: the kit's `ArrayVec` cannot be copied, and outside its own crate its value says nothing of a bound.
#[derive(Clone, Copy)]
pub struct Codes {
    list: [u32; 128],
    len: usize,
    ghost short: { len ≤ 128 },
    ghost full: { length list ≡ 128 },
}
