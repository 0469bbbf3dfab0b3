//! What the run of a whole node says. The functions do nothing: their contracts state the laws.
#![tactic(auto)]

ghost use Rattle.ta_witness.specs.MomentLaws.{MomentRunsAreDetermined, MomentRunsAreShort, MomentRunsShow};
ghost use Rattle.ta_witness.specs.Resting.{MomentRunsEndMarked, MomentRunsRest};

/// The run of a whole node shows the pattern.
pub fn moment_runs_show()
    ensures { MomentRunsShow }
{}

/// A node has one run at its values.
pub fn moment_runs_are_determined()
    ensures { MomentRunsAreDetermined }
{}

/// At rest the run of a whole node ends at quiet rest, where the pattern's last event happens.
pub fn moment_runs_rest()
    ensures { MomentRunsRest }
{}

/// At rest the run of a whole node of a pattern with one event ends with the mark of this event.
pub fn moment_runs_end_marked()
    ensures { MomentRunsEndMarked }
{}

/// Where each question was asked once, the run of a whole node has at most (guards + events) * (rules + 1)
/// steps.
pub fn moment_runs_are_short()
    ensures { MomentRunsAreShort }
{}
