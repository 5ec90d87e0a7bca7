// The record of a field chosen at run time.
ghost use Rattle.std.specs.Prelude.{◌≤◌};
ghost use Rattle.tower.specs.Piles.{fewest, pile_meaning};

use crate::pile::Pile;

mod make;
mod ops;

#[derive(Clone, Copy)]
pub struct Tower {
    pile: Pile,
    ghost large: { fewest pile ≤ (pile_meaning pile).size },
}
