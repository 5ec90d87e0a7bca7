// Arithmetic on a + b w, on the codes a + q * b. A code is taken apart by one division by q, and what the field below answers
// is put together only if both parts are below q: above a field that breaks its laws the answers mean nothing, and they still
// stay in bounds.
ghost use Rattle.std.specs.Prelude.{◌≡◌, ◌*◌, ◌/◌, ◌%◌, ◌<◌, ◌≤◌, MatchOption};
ghost use Rattle.field.specs.Extensions.{packed};
ghost use Rattle.field.specs.Made.{extension_meaning};

use crate::extension::Extension;
use crate::interface::Field;

impl<F> Extension<F> {
    // The code of a + b w, or 0 where a or b is not below q.
    #[tactic(auto, using(std::proofs::lemmas::Bool::Decides::nat_tests), unfolding(crate::specs::Extensions::packed))]
    fn pack(&self, a: u32, b: u32) -> u32
        ensures { result ≡ packed self.now.q a b }
    {
        if a >= self.q || b >= self.q {
            return 0;
        }
        a + self.q * b
    }

    // The a and b of the code of a + b w, absent where the number is no code of this field.
    fn unpack(&self, code: u32) -> Option<(u32, u32)>
        ensures { MatchOption result (self.now.q * self.now.q ≤ code) (λ r. (code < self.now.q * self.now.q) × (r.0 ≡ code % self.now.q) × (r.1 ≡ code / self.now.q)) }
    {
        if code >= self.q * self.q {
            return None;
        }
        Some((code % self.q, code / self.q))
    }
}

impl<F: Field> Field for Extension<F> {
    ghost meaning = { extension_meaning F.Field.meaning };

    fn size(&self) -> u32 {
        self.q * self.q
    }

    #[tactic(auto, using(std::proofs::lemmas::Bool::Decides::nat_tests), unfolding(crate::specs::Extensions::ext_sum))]
    fn add(&self, a: u32, b: u32) -> u32 {
        let (Some((a0, a1)), Some((b0, b1))) = (self.unpack(a), self.unpack(b)) else {
            return 0;
        };
        let low = self.base.add(a0, b0);
        let high = self.base.add(a1, b1);
        self.pack(low, high)
    }

    #[tactic(auto, using(std::proofs::lemmas::Bool::Decides::nat_tests), unfolding(crate::specs::Extensions::ext_opposite))]
    fn neg(&self, a: u32) -> u32 {
        let Some((a0, a1)) = self.unpack(a) else {
            return 0;
        };
        let low = self.base.neg(a0);
        let high = self.base.neg(a1);
        self.pack(low, high)
    }

    #[tactic(auto, using(std::proofs::lemmas::Bool::Decides::nat_tests), unfolding(crate::specs::Extensions::ext_product))]
    fn mul(&self, a: u32, b: u32) -> u32 {
        let (Some((a0, a1)), Some((b0, b1))) = (self.unpack(a), self.unpack(b)) else {
            return 0;
        };
        let square = self.base.mul(self.n, self.base.mul(a1, b1));
        let low = self.base.add(self.base.mul(a0, b0), square);
        let high = self.base.add(self.base.mul(a0, b1), self.base.mul(a1, b0));
        self.pack(low, high)
    }

    #[tactic(auto, using(std::proofs::lemmas::Bool::Decides::nat_tests), unfolding(crate::specs::Extensions::ext_inverse))]
    fn inv(&self, a: u32) -> Option<u32> {
        let (x, y) = self.unpack(a)?;
        let square = self.base.mul(self.n, self.base.mul(y, y));
        let norm = self.base.add(self.base.mul(x, x), self.base.neg(square));
        let i = self.base.inv(norm)?;
        let low = self.base.mul(x, i);
        let high = self.base.mul(self.base.neg(y), i);
        Some(self.pack(low, high))
    }
}
