// The record of a polynomial: its coefficients, the lowest first, and its length, the number of coefficients up to the last that
// is not 0. The zero polynomial has length 0; any other has a leading coefficient, the one before the length, which is not 0.
//
// The modules below hold the methods: `make` builds and reads polynomials, `lists` takes them from lists of codes, `equal`
// compares them, and `sums`, `products`, `quotients`, `monics`, `derivatives` and `gcds` compute with them.
ghost use Rattle.std.specs.Prelude.{◌≡◌, ℕ, ◌-◌, ◌<◌, ◌≤◌, length, ◌≢◌, slice_index};

mod derivatives;
mod equal;
mod gcds;
mod lists;
mod make;
mod monics;
mod products;
mod quotients;
mod sums;

pub use lists::TooLong;

// The plain record; that it and the polynomial around it are two structs is a rule of the project. The engine has no heap, so the
// coefficients lie in an array of fixed size with their length beside it. The size is written as the number that clauses state.
#[derive(Clone, Copy, Debug)]
struct Raw {
    coeffs: [u32; 128],
    len: usize,
}

// What makes a record a polynomial: 128 coefficients, a length of at most 128, only 0 from the length on, and not 0 just before it.
#[derive(Clone, Copy, Debug)]
pub struct Poly {
    raw: Raw,
    ghost long: { length raw.coeffs ≡ 128 },
    ghost short: { raw.len ≤ 128 },
    ghost past: { (k : ℕ) → raw.len ≤ k → slice_index raw.coeffs k ≡ 0 },
    ghost top: { 0 < raw.len → slice_index raw.coeffs (raw.len - 1) ≢ 0 },
}
