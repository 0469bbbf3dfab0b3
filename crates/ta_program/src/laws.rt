//! What runs of the program have to do with each other. The functions do nothing: their contracts
//! state the laws.
#![tactic(auto)]

ghost use Rattle.ta_program.specs.Laws.{
  AdmittedRunsAreReplayed,
  CompressedRunsAreReplayed,
  FoundIsAccepted,
  PrintedRestRunsAreReplayed,
  PrintedRunsAreReplayed,
  WrittenAtRestIsAccepted,
  WrittenIsAccepted,
};

/// What `verify` prints as a run `replay` shows.
pub fn printed_runs_are_replayed()
    ensures { PrintedRunsAreReplayed }
{}

/// What `rest` prints as a run `replay` shows.
pub fn printed_rest_runs_are_replayed()
    ensures { PrintedRestRunsAreReplayed }
{}

/// What the four commands that print runs print as a run `replay` shows; of a compressed run, if its
/// replay stays in range.
pub fn runs_are_replayed()
    ensures verify { PrintedRunsAreReplayed }
    ensures rest { PrintedRestRunsAreReplayed }
    ensures admit { AdmittedRunsAreReplayed }
    ensures compress { CompressedRunsAreReplayed }
{}

/// The certificate that `verify` puts `check` accepts, for exactly the patterns that it reports safe.
pub fn written_certificates_are_accepted()
    ensures { WrittenIsAccepted }
{}

/// The certificate that `rest` puts `rest-check` accepts, for exactly the patterns that it reports safe at rest.
pub fn written_rest_certificates_are_accepted()
    ensures { WrittenAtRestIsAccepted }
{}

/// The certificate that `search` puts `check` accepts of the filled text, for all its patterns.
pub fn found_certificates_are_accepted()
    ensures { FoundIsAccepted }
{}
