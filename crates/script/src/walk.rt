// The walk along the line of a setting, from (1) on.
use crate::plan::Plan;
use ideal::Ideal;

mod ops;

// An ideal of the line, with how many steps lead to it and how far they go.
#[derive(Clone, Copy)]
pub struct Stop {
    pub index: u32,
    pub distance: u64,
    pub ideal: Ideal,
}

// The stops of a plan, one for the start and one for each step. A type of its own rather than a chain, as what is promised of
// each stop names the plan and how many are left.
#[derive(Drop)]
pub struct Walk<'a> {
    plan: &'a Plan,
    stop: Stop,
    left: u32,
}
