// Walking.
ghost use Rattle.std.specs.Prelude.{◌≡◌, ◌+◌, ◌-◌, ◌^◌, ◌<◌, min};
ghost use Rattle.script.specs.Walks.{OnLine, Start, Ready, Walked};
ghost use Rattle.std.specs.Iterator.{at_most};

use crate::plan::Plan;
use crate::show::Shown;
use crate::walk::{Stop, Walk};
use field::Field;
use ideal::{Curve, Ideal};
use std::fmt;

impl Stop {
    // The line starts with (1) at distance 0.
    pub(crate) fn start() -> Stop
        ensures index { result.index ≡ 0 }
        ensures line { Start result }
    {
        Stop {
            index: 0,
            distance: 0,
            ideal: Ideal::one(),
        }
    }

    // One step further. The sums stop at the end of their types, which is too far for any walk.
    pub(crate) fn next<F: Field>(&self, curve: &Curve<F>) -> Stop
        ensures index { result.index ≡ min (self.now.index + 1) (2 ^ 32 - 1) }
        ensures line { self.now.index + 1 < 2 ^ 32 → OnLine (F.meaning curve.now.field) curve.now.setting self.now → OnLine (F.meaning curve.now.field) curve.now.setting result }
    {
        let (ideal, far) = self.ideal.step(curve);
        let length = far.saturating_sub(self.ideal.q().len());
        Stop {
            index: self.index.saturating_add(1),
            distance: self.distance.saturating_add(length as u64),
            ideal,
        }
    }
}

impl fmt::Display for Stop {
    fn fmt<W: fmt::Write>(&self, f: &mut fmt::Formatter<W>) -> fmt::Result {
        let index = self.index;
        let distance = self.distance;
        let q = Shown(self.ideal.q());
        let p = Shown(self.ideal.p());
        write!(f, "{index}: distance {distance}, Q = {q}, P = {p}")
    }
}

impl<'a> Walk<'a> {
    pub fn new(plan: &'a Plan) -> Walk<'a>
        ensures { Ready plan.now result }
    {
        Walk {
            plan,
            stop: Stop::start(),
            left: plan.steps.saturating_add(1),
        }
    }
}

impl Iterator for Walk<'_> {
    type Item = Stop;

    ghost next_gives = { Walked };

    ghost remaining = { λ w. at_most w.left };

    fn next(&mut self) -> Option<Stop> {
        self.left = self.left.checked_sub(1)?;
        let stop = self.stop;
        self.stop = stop.next(&self.plan.curve);
        Some(stop)
    }
}
