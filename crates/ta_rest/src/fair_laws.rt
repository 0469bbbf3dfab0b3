//! What quiet rest says of fair runs without end. The functions do nothing: their contracts state the laws.
#![tactic(auto)]

ghost use Rattle.ta_rest.specs.FairLaws.{CalmRunsRest, FairRunsComeToRest, FairRunsOfFiles, RestingRunsGoOn, RunsBecomeCalm, RunsGoOnFairly};

/// Where every cycle of rules is a self-loop, and self-loops add nothing: the pattern occurs for ever
/// in no fair run exactly where no run comes to quiet rest for it.
pub fn fair_runs_come_to_rest()
    ensures each { FairRunsComeToRest }
    ensures files { FairRunsOfFiles }
{}

/// Moves end: it can't be that a run without end never becomes calm. Once it is calm nothing changes,
/// and where it is fair it is at quiet rest.
pub fn runs_become_calm()
    ensures never { RunsBecomeCalm }
    ensures rest { CalmRunsRest }
{}

/// Every run that comes to quiet rest for a pattern goes on, without a change, to a fair run in which
/// the pattern occurs for ever.
pub fn resting_runs_go_on()
    ensures { RestingRunsGoOn }
{}

/// Every run is the beginning of a fair run, where every cycle of rules is a self-loop and no guard
/// subtracts a silent place: so fairness leaves no run out.
pub fn runs_go_on_fairly()
    ensures { RunsGoOnFairly }
{}
