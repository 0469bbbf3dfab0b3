//! What the refusal of a run says. The function does nothing: its contract states the law.
#![tactic(auto)]

ghost use Rattle.ta_compress.specs.Determined.{CompressFaultsAreDetermined};

/// A run that fits is refused in one way at most, and in none where it can be compressed.
pub fn refusals_are_determined()
    ensures { CompressFaultsAreDetermined }
{}
