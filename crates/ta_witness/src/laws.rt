//! What the run of a solution says. The functions do nothing: their contracts state the laws.
#![tactic(auto)]

ghost use Rattle.ta_witness.specs.Witness.{WitnessesAreDetermined, WitnessesShow};

/// The run of a solution shows the pattern, and is short.
pub fn witnesses_show()
    ensures { WitnessesShow }
{}

/// A solution has one run.
pub fn witnesses_are_determined()
    ensures { WitnessesAreDetermined }
{}
