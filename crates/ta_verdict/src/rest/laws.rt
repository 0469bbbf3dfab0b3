//! Laws of verdicts on runs that end in a deadlock. The functions do nothing: their contracts state
//! the laws.
#![tactic(auto)]

ghost use Rattle.ta_verdict.specs.Rest.Certificates.{RestCertificatesAreDetermined};
ghost use Rattle.ta_verdict.specs.Rest.Said.{RestVerdictsClaim, RestVerdictsShow};
ghost use Rattle.ta_verdict.specs.Rest.Laws.{RestTextsAreAlike, RestVerdictsAreDetermined, RestsAreSolved};

/// What a visit finds solves a word's system of rest.
pub fn rests_are_solved()
    ensures { RestsAreSolved }
{}

/// A file has one list of verdicts on its runs that come to rest.
pub fn rest_verdicts_are_determined()
    ensures { RestVerdictsAreDetermined }
{}

/// A report names a file's own patterns as it names their endings.
pub fn rest_texts_are_alike()
    ensures { RestTextsAreAlike }
{}

/// Verdicts have one text of a certificate for a budget.
pub fn rest_certificates_are_determined()
    ensures { RestCertificatesAreDetermined }
{}

/// What verdicts that hold say of a file's own patterns, by words and by moments: of a safe one no run
/// comes to rest where its last event happens, and of an unsafe one the run does.
pub fn rest_verdicts_are_told()
    ensures safe { RestVerdictsClaim }
    ensures runs { RestVerdictsShow }
{}
