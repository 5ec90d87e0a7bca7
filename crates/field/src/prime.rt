// The prime fields: the codes below p, added and multiplied modulo p, where p is one of ten primes.
//
// The files: this one declares the field, `make` makes one from its modulus, and `ops` has the field's operations.
ghost use Rattle.std.specs.Prelude.{◌≡◌, true};
ghost use Rattle.field.specs.Primes.{moduli, listed};

mod make;
mod ops;

// The field of modulus p.
#[derive(Clone, Copy)]
pub struct Prime {
    p: u32,
    ghost ok: { listed p moduli ≡ true },
}
