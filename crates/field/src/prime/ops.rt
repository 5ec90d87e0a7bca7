// Arithmetic modulo p on the codes below p. Sums and opposites take no division; a product is formed in 64 bits. That a number
// is no code is one comparison with p, and no name for it is shorter.
ghost use Rattle.field.specs.Made.{prime_field_meaning};

use crate::interface::Field;
use crate::prime::Prime;

impl Field for Prime {
    ghost meaning = { prime_field_meaning };

    fn size(&self) -> u32 {
        self.p
    }

    #[tactic(auto, using(crate::proofs::PrimeLaws::sums))]
    fn add(&self, a: u32, b: u32) -> u32 {
        if a >= self.p || b >= self.p {
            return 0;
        }
        let sum = a + b;
        if sum < self.p { sum } else { sum - self.p }
    }

    #[tactic(auto, using(crate::proofs::PrimeLaws::opposites))]
    fn neg(&self, a: u32) -> u32 {
        if a == 0 || a >= self.p { 0 } else { self.p - a }
    }

    #[tactic(auto, using(std::proofs::lemmas::Bool::Decides::nat_tests), unfolding(crate::specs::Primes::product_mod))]
    fn mul(&self, a: u32, b: u32) -> u32 {
        if a >= self.p || b >= self.p {
            return 0;
        }
        (a as u64 * b as u64 % self.p as u64) as u32
    }

    // Each turn keeps a * factor = rest modulo p and makes rest smaller; it never comes to 0, since p is prime, and so ends
    // at 1.
    #[tactic(auto, using(crate::proofs::Inverses::inverses))]
    fn inv(&self, a: u32) -> Option<u32> {
        if a == 0 || a >= self.p {
            return None;
        }
        let p = self.p as u64;
        let mut rest = a as u64;
        let mut factor = 1;
        while rest > 1 {
            factor = (p - p / rest) * factor % p;
            rest = p % rest;
        }
        Some(factor as u32)
    }
}
