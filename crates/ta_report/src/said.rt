//! What a report is made of.
#![tactic(auto)]

use crate::pick::Pick;
use crate::verdict::{ReportSample, Verdict};
use ta_automaton::File;

/// A file, which of its patterns a report tells of, what is said of its parameters, and one verdict for
/// each of these patterns, in their order.
#[derive(Clone, Copy, Drop)]
pub struct Said<'a> {
    pub file: &'a File,
    pub pick: Pick,
    pub sample: &'a ReportSample,
    pub verdicts: &'a [Verdict],
}
