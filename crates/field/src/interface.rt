// The interface of a coefficient field. An element is named by its code, a number below the field's size; zero has code 0 and
// one has code 1. What an implementation answers is its ghost member `meaning`, and whether that meaning is a field at all is
// a separate statement, `Lawful`: anyone may write an implementation, so code above takes the laws as a premise of what it
// promises and stays safe without them.
ghost use Rattle.std.specs.Prelude.{◌≡◌};
ghost use Rattle.field.specs.Meaning.{Meaning};

pub trait Field {
    // The size, and the four operations on codes.
    ghost meaning: { Self → Meaning };

    // How many elements there are.
    fn size(&self) -> u32
        ensures { result ≡ (meaning self.now).size };

    // The sum of two elements, or 0 where one of the numbers is no code.
    fn add(&self, a: u32, b: u32) -> u32
        ensures { result ≡ (meaning self.now).sum a b };

    // The opposite of an element, or 0 where the number is no code.
    fn neg(&self, a: u32) -> u32
        ensures { result ≡ (meaning self.now).opposite a };

    // The product of two elements, or 0 where one of the numbers is no code.
    fn mul(&self, a: u32, b: u32) -> u32
        ensures { result ≡ (meaning self.now).product a b };

    // The inverse of an element, absent at 0 and where the number is no code.
    fn inv(&self, a: u32) -> Option<u32>
        ensures { result ≡ (meaning self.now).inverse a };
}

// A reference to a field is that field.
impl<F: Field> Field for &F {
    ghost meaning = { λ f. F.Field.meaning f.now };

    fn size(&self) -> u32 {
        (**self).size()
    }

    fn add(&self, a: u32, b: u32) -> u32 {
        (**self).add(a, b)
    }

    fn neg(&self, a: u32) -> u32 {
        (**self).neg(a)
    }

    fn mul(&self, a: u32, b: u32) -> u32 {
        (**self).mul(a, b)
    }

    fn inv(&self, a: u32) -> Option<u32> {
        (**self).inv(a)
    }
}
