// Polynomials from lists of codes.
ghost use Rattle.std.specs.Prelude.{◌≡◌, ℕ, ◌<◌, ◌≤◌, length, MatchResult, slice_index};
ghost use Rattle.poly.specs.Rules.{Listed};
ghost use Rattle.poly.specs.Values.{at};

use super::Poly;
use super::make::normal;
use std::error::Error;
use std::fmt;

/// A list of more codes than a polynomial has coefficients here, which is 128.
#[derive(Clone, Copy, Debug, PartialEq, Eq)]
pub struct TooLong;

impl fmt::Display for TooLong {
    fn fmt<W: fmt::Write>(&self, f: &mut fmt::Formatter<W>) -> fmt::Result {
        f.write_str("more than 128 coefficients")
    }
}

impl Error for TooLong {}

// The polynomial of the coefficients of `codes`, the lowest first.
impl TryFrom<&[u32]> for Poly {
    type Error = TooLong;

    ghost try_from_gives = { λ codes r. MatchResult r (λ p. (length codes.now ≤ 128) × ((k : ℕ) → at p k ≡ slice_index codes.now k) × Listed codes.now p) (λ _. 128 < length codes.now) };

    fn try_from(codes: &[u32]) -> Result<Poly, TooLong> {
        if codes.len() > 128 {
            return Err(TooLong);
        }
        let mut coeffs = [0u32; 128];
        coeffs[..codes.len()].copy_from_slice(codes);
        Ok(normal(coeffs, codes.len()))
    }
}
