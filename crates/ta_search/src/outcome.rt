//! What a search of a template's holes finds.
#![tactic(auto)]

use crate::certificate::CertificateText;
use ta_base::{List, Text};
use ta_report::{ReportSample, Verdict};
use ta_syntax::FileFault;

/// What comes of a vector of values, within a budget.
#[derive(Drop)]
pub enum Outcome {
    /// The filled text is longer than an automaton file may be.
    Long,
    /// The filled text has this error, which is never want of memory.
    Refused(FileFault),
    /// No admissible parameters have an initial configuration.
    Empty,
    /// Whether some have one isn't known.
    SampleUnknown(ReportSample),
    /// The first pattern that isn't safe has this name, and a run of this text shows it.
    Unsafe { pattern: Text, run: Text },
    /// The first pattern that isn't safe has this name, and this verdict, which leaves it unknown.
    Unknown { pattern: Text, verdict: Verdict },
    /// Every pattern is safe, as this certificate proves.
    Safe { certificate: CertificateText },
}

/// A vector that was tried: a value for each hole, and what came of it.
#[derive(Drop)]
pub struct Tried {
    pub values: List<u32>,
    pub outcome: Outcome,
}

/// What was tried, in order, and whether the last of it is safe.
#[derive(Drop)]
pub struct SearchEnd {
    pub tried: List<Tried>,
    pub found: bool,
}
