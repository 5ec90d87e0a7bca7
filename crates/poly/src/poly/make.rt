// Polynomials from their coefficients, and what is read off one.
ghost use Rattle.std.specs.Prelude.{◌≡◌, ℕ, ◌-◌, ◌<◌, ◌≤◌, ◌==◌, length, ◌≢◌, slice_index};
ghost use Rattle.poly.specs.Rules.{Zero, One, Constant};
ghost use Rattle.poly.specs.Values.{at, size, coefficients};

use super::{Poly, Raw};

// How many of these coefficients there are up to the last that is not 0.
fn reach(coeffs: &[u32]) -> usize
    ensures within { result ≤ length coeffs.now }
    ensures past { (k : ℕ) → result ≤ k → slice_index coeffs.now k ≡ 0 }
    ensures top { 0 < result → slice_index coeffs.now (result - 1) ≢ 0 }
{
    let top = coeffs.iter().rposition(|c| *c != 0);
    top.map_or(0, |top| top + 1)
}

// The polynomial of these coefficients, which are 0 from `end` on: its length is found from there down.
pub(super) fn normal(coeffs: [u32; 128], end: usize) -> Poly
    requires within { end ≤ 128 }
    requires ended { (k : ℕ) → end ≤ k → slice_index coeffs k ≡ 0 }
    ensures { result.raw.coeffs ≡ coeffs }
{
    let len = reach(&coeffs[..end]);
    let raw = Raw { coeffs, len };
    Poly { raw }
}

// The polynomial of the first `len` coefficients that the closure gives. It is not made by `normal`: the array would be copied
// twice more on its way there.
pub(super) fn filled<C: Fn(usize) -> u32>(len: usize, coefficient: C) -> Poly
    requires within { len ≤ 128 }
    requires may { (k : ℕ) → k < len → C.pre coefficient k }
    ensures given { (k : ℕ) → k < len → C.post coefficient k (at result k) }
    ensures past { (k : ℕ) → len ≤ k → at result k ≡ 0 }
{
    let mut coeffs = [0u32; 128];
    for i in 0..len {
        coeffs[i] = coefficient(i);
    }
    let len = reach(&coeffs[..len]);
    let raw = Raw { coeffs, len };
    Poly { raw }
}

impl Poly {
    pub fn zero() -> Poly
        ensures places { (k : ℕ) → at result k ≡ 0 }
        ensures is { Zero result }
    {
        Poly::constant(0)
    }

    // How many coefficients there are up to the last that is not 0.
    pub fn len(&self) -> usize
        ensures { (result ≡ size self.now) × (result ≤ 128) }
    {
        self.raw.len
    }

    pub fn is_zero(&self) -> bool
        ensures { result ≡ (size self.now == 0) }
    {
        self.codes().is_empty()
    }

    pub fn coeff(&self, i: usize) -> u32
        ensures { result ≡ at self.now i }
    {
        self.codes().get(i).copied().unwrap_or(0)
    }

    // The coefficients, the lowest first, up to the last that is not 0.
    pub fn codes(&self) -> &[u32]
        ensures { result.now ≡ coefficients self.now }
    {
        &self.raw.coeffs[..self.raw.len]
    }

    // The polynomial whose only coefficient is c, at place 0.
    pub fn constant(c: u32) -> Poly
        ensures places { (at result 0 ≡ c) × ((k : ℕ) → 0 < k → at result k ≡ 0) }
        ensures is { Constant c result }
    {
        filled(1, |_| c)
    }

    pub fn one() -> Poly
        ensures { One result }
    {
        Poly::constant(1)
    }
}
