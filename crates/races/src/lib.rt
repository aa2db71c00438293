//! Races of a circuit, and the theorem that the marks of both passes are exact: laws, each on a function's contract.
#![tactic(auto)]

ghost use Rattle.races.specs.Adopts.{AdoptLands};
ghost use Rattle.races.specs.Examples.{Examples};
ghost use Rattle.races.specs.Exact.{MarksExact, OutcomeSome};
ghost use Rattle.races.specs.Fires.{FireSteps, StepsFire};

/// Theorem: first marks tell the values along the races, second marks those in the outcome.
pub fn marks_exact()
    ensures { MarksExact }
{}

/// Theorem: the races come to something.
pub fn outcome_some()
    ensures { OutcomeSome }
{}

/// Theorem: firing is a race step.
pub fn fire_steps()
    ensures { FireSteps }
{}

/// Theorem: every race step from a state with unstable signals is a firing.
pub fn steps_fire()
    ensures { StepsFire }
{}

/// Theorem: where no second mark is unknown, the races come to the state of the second marks, which is stable.
pub fn adopt_lands()
    ensures { AdoptLands }
{}

/// Two small circuits, and what their races come to.
pub fn examples()
    ensures { Examples }
{}
