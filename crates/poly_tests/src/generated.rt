// Polynomials that look random and are the same in every run.
use field::Field;
use poly::{Poly, TooLong};

// A linear congruential sequence, in 64 bits: those of the tests of places and of exchanges have 32, and give bytes.
#[derive(Drop)]
pub struct Numbers(pub u64);

impl Numbers {
    pub fn next(&mut self) -> u32 {
        self.0 = self
            .0
            .wrapping_mul(6364136223846793005)
            .wrapping_add(1442695040888963407);
        (self.0 >> 33) as u32
    }

    // A polynomial of n coefficients, at most 128, the highest of which is not 0.
    pub fn poly<F: Field>(&mut self, f: &F, n: usize) -> Result<Poly, TooLong> {
        let q = f.size().max(2);
        let n = n.min(128);
        let mut coeffs = [0u32; 128];
        for c in coeffs[..n].iter_mut() {
            *c = self.next() % q;
        }
        if let Some(top) = coeffs[..n].last_mut() {
            *top = 1 + self.next() % (q - 1);
        }
        Poly::try_from(&coeffs[..])
    }
}
