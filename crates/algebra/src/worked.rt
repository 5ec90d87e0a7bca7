// A worked setting: one list of cases that hold in it, written in numbers.
ghost use Rattle.algebra.specs.Worked.{WorkedCases};

/// Over 5 with D = x⁴ + x + 1: the line with its distances, products with their shortfalls, places and their sums.
#[tactic(auto, using(crate::proofs::Five::worked_cases_lem))]
pub fn worked_cases()
    ensures { WorkedCases }
{}
