// The record of a setting.
ghost use Rattle.std.specs.Prelude.{◌≤◌};

use poly::Poly;

mod make;

#[derive(Clone, Copy, Debug, PartialEq, Eq)]
pub struct Setting {
    // D, of degree 2m
    radicand: Poly,
    // d, of degree m, with D − d·d of degree below m
    root: Poly,
    // m; it stands beside D since the contracts name it, as in the length m − deg Q of a step
    half: usize,
    ghost low: { 2 ≤ half },
    ghost high: { half ≤ 25 },
}
