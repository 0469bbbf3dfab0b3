//! What runs that show their patterns say of them, and what pieces say of the runs that they make. The
//! functions do nothing: their contracts state the laws.
#![tactic(auto)]

ghost use Rattle.ta_replay.specs.Answers.{RunTextsHaveAnswers};
ghost use Rattle.ta_replay.specs.Determined.{RefusalsAreDetermined, TextsAreDetermined};
ghost use Rattle.ta_replay.specs.Shows.{ShownRunsOccur};
ghost use Rattle.ta_replay.specs.Pieces.{PiecesAreShort, PiecesShow};

/// A shown run is an occurrence.
pub fn shown_runs_occur()
    ensures { ShownRunsOccur }
{}

/// Pieces of a run, each with at most one step of a rule and a single last one, have few steps.
pub fn pieces_are_short()
    ensures { PiecesAreShort }
{}

/// A run of pieces at whose ends the marked events happen shows its pattern.
pub fn pieces_show()
    ensures { PiecesShow }
{}

/// A text is that of a run of the file, or has a first error at a line.
pub fn texts_have_answers()
    ensures { RunTextsHaveAnswers }
{}

/// A text is that of one run, or has one first error, and not both.
pub fn texts_are_determined()
    ensures { TextsAreDetermined }
{}

/// A run that fits has one first refusal, and none where it shows its pattern within the range.
pub fn refusals_are_determined()
    ensures { RefusalsAreDetermined }
{}
