//! What texts, spelled words and admitted values determine. The functions do nothing: their contracts state the laws.
#![tactic(auto)]

ghost use Rattle.ta_smt.specs.Admit.{AdmitsAreExact};
ghost use Rattle.ta_smt.specs.Denotes.{ScriptsAreDetermined};
ghost use Rattle.ta_smt.specs.Determined.{AdmitFaultsAreDetermined, WholeFaultsAreDetermined, WordFaultsAreDetermined};
ghost use Rattle.ta_smt.specs.Named.{WholeWordsAreExact, WordsAreExact};

/// A text is that of at most one script.
pub fn scripts_are_determined()
    ensures { ScriptsAreDetermined }
{}

/// Values that a run is written for have no error, and one run.
pub fn admits_are_exact()
    ensures { AdmitsAreExact }
{}

/// A file has at most one word that is spelled so, and then no error of it; and a complete one has no
/// error of complete words.
pub fn words_are_exact()
    ensures words { WordsAreExact }
    ensures whole { WholeWordsAreExact }
{}

/// Bytes have at most one error as the values of a word, and there is at most one reason why a file
/// hasn't a word, or not a complete one.
pub fn faults_are_determined()
    ensures values { AdmitFaultsAreDetermined }
    ensures words { WordFaultsAreDetermined }
    ensures whole { WholeFaultsAreDetermined }
{}
