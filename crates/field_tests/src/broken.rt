// Fields that break their laws. Anyone can write one, so what stands above has to stay safe.
ghost use Rattle.std.specs.Prelude.{Some};
ghost use Rattle.field.specs.Made.{prime_field_meaning};

use field::{Field, Prime};

// A prime field but for its product, which is always 0.
#[derive(Drop)]
pub struct NoProducts(pub Prime);

impl Field for NoProducts {
    ghost meaning = { λ f. record {
      size = (prime_field_meaning f.0).size;
      sum = (prime_field_meaning f.0).sum;
      opposite = (prime_field_meaning f.0).opposite;
      product = λ _ _. 0;
      inverse = (prime_field_meaning f.0).inverse;
    } };

    fn size(&self) -> u32 {
        self.0.size()
    }

    fn add(&self, a: u32, b: u32) -> u32 {
        self.0.add(a, b)
    }

    fn neg(&self, a: u32) -> u32 {
        self.0.neg(a)
    }

    fn mul(&self, _a: u32, _b: u32) -> u32 {
        0
    }

    fn inv(&self, a: u32) -> Option<u32> {
        self.0.inv(a)
    }
}

// Seven elements, and no answer is one of them.
#[derive(Drop)]
pub struct Wild;

impl Field for Wild {
    ghost meaning = { λ _. record {
      size = 7;
      sum = λ _ _. 4294967295;
      opposite = λ _. 4294967295;
      product = λ _ _. 4294967295;
      inverse = λ _. Some 4294967295;
    } };

    fn size(&self) -> u32 {
        7
    }

    fn add(&self, _a: u32, _b: u32) -> u32 {
        u32::MAX
    }

    fn neg(&self, _a: u32) -> u32 {
        u32::MAX
    }

    fn mul(&self, _a: u32, _b: u32) -> u32 {
        u32::MAX
    }

    fn inv(&self, _a: u32) -> Option<u32> {
        Some(u32::MAX)
    }
}
