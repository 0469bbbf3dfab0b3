//! What arranged steps say of runs. The functions do nothing: their contracts state the laws.
#![tactic(auto)]

ghost use Rattle.ta_scope.specs.Legal.{ArrangedStepsAreDetermined, ArrangedStepsAreLegal, ArrangedStepsAreWithin, ArrangedStepsReachTheEnd};

/// Arranged steps are legal one after another, and their end is the end that the counts have. Each rule
/// is among them at most once.
pub fn arranged_steps_are_legal()
    ensures until_the_last { ArrangedStepsAreLegal }
    ensures at_the_end { ArrangedStepsReachTheEnd }
    ensures within { ArrangedStepsAreWithin }
{}

/// Counts have one list of arranged steps.
pub fn arranged_steps_are_determined()
    ensures { ArrangedStepsAreDetermined }
{}
