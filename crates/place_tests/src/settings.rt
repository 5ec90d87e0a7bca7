// Settings of any degree over any field.
ghost use Rattle.std.specs.Prelude.{IfSome};
ghost use Rattle.place_tests.specs.Settings.{Trinomial, WithTerm};

use field::Field;
use ideal::Setting;
use poly::Poly;

// x^degree + i·x + 1, for a degree from 2 to 50.
fn trinomial(degree: usize, i: u32) -> Option<Poly>
    ensures { IfSome result (λ p. Trinomial degree i p) }
{
    if degree > 50 {
        return None;
    }
    let mut coeffs = [0u32; 51];
    coeffs[0] = 1;
    coeffs[1] = i;
    coeffs[degree] = 1;
    Poly::try_from(&coeffs[..]).ok()
}

// The setting of x^degree + i·x + 1, where it is accepted.
pub fn with_term<F: Field>(f: &F, degree: usize, i: u32) -> Option<Setting>
    ensures { IfSome result (λ s. WithTerm (F.meaning f.now) degree i s) }
{
    Setting::new(f, &trinomial(degree, i)?).ok()
}
