// What is asked of D and of the Q of an ideal.
ghost use Rattle.std.specs.Prelude.{◌≡◌, ◌-◌, ◌<◌, Decides};
ghost use Rattle.poly.specs.Values.{at, size};

use poly::Poly;

// Whether the leading coefficient is 1.
pub fn is_monic(p: &Poly) -> bool
    ensures { Decides result ((0 < size p.now) × (at p.now (size p.now - 1) ≡ 1)) }
{
    p.codes().last() == Some(&1)
}
