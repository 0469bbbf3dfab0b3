//! Laws of certificates. The functions do nothing: their contracts state the laws.
#![tactic(auto)]

ghost use Rattle.ta_check.specs.Certificate.{CertificatesNameOneList, CertificatesShow, ClaimsHold};
ghost use Rattle.ta_check.specs.Faults.{LastingFaultsLast};

/// The patterns of a certificate are safe, and none of their words has a solution.
pub fn certificates_show()
    ensures { CertificatesShow }
{}

/// What a certificate claims of its patterns holds.
pub fn claims_hold()
    ensures { ClaimsHold }
{}

/// A text is a certificate of one list of patterns at most.
pub fn certificates_name_one_list()
    ensures { CertificatesNameOneList }
{}

/// A lasting error of a text is the first error of each longer one.
pub fn lasting_faults_last()
    ensures { LastingFaultsLast }
{}
