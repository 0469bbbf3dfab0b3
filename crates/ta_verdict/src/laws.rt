//! Laws of verdicts. The functions do nothing: their contracts state the laws.
#![tactic(auto)]

ghost use Rattle.ta_verdict.specs.Certificates.{CertificatesAreDetermined};
ghost use Rattle.ta_verdict.specs.Verdicts.{SamplesAreDetermined, VerdictsAreDetermined};

/// A file has one sample of its parameters and one list of verdicts for a budget.
pub fn verdicts_are_determined()
    ensures verdicts { VerdictsAreDetermined }
    ensures samples { SamplesAreDetermined }
{}

/// A file has one text of a certificate for a budget.
pub fn certificates_are_determined()
    ensures { CertificatesAreDetermined }
{}
