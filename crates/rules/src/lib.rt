// The rules, as definitions that contracts cite, and theorems about them; there is no code to run.
//
// Under specs/: `Questions` has questions and the first one with the answer no, `Packets` packets and bodies as bytes, `Settings` accepted
// settings, `Ends` the calls of an end with their questions and what they leave, `Places` find and add, `Runs` what two ends do
// between them and what agreement says.
#![tactic(auto)]

ghost use Rattle.rules.specs.Ends.{Settled};
ghost use Rattle.rules.specs.Runs.{Agreement};

/// Names the theorem: two ends that do as the rules say agree.
pub fn agreement_stands()
    ensures { Agreement }
{}

/// Names the theorem: the rules give every call at every end one answer.
pub fn rules_settle()
    ensures { Settled }
{}
