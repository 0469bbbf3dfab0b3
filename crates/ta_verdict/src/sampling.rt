//! The sample of a file's parameters.
#![tactic(auto)]

ghost use Rattle.std.specs.Prelude.{◌≡◌, ◌<◌, ◌≤◌, IfOk};
ghost use Rattle.ta_verdict.specs.Verdicts.{IsSample, place_of};

use std::alloc::{AllocError, Global};
use ta_automaton::File;
use ta_base::limits::MOST_NODES;
use ta_dense::DenseDictionary;
use ta_report::{ReportKind, ReportSample};
use ta_walk::{PlaceKind, SampleEnd, sample};

/// A sample of the parameters of a file, within a budget of nodes.
pub fn sample_of(alloc: Global, file: &File, nodes: u64) -> Result<ReportSample, AllocError>
    requires some { 0 < nodes }
    requires limit { nodes ≤ MOST_NODES }
    ensures { IfOk result (IsSample file.now nodes) }
{
    match sample::<DenseDictionary>(alloc, file, nodes)? {
        SampleEnd::Sample(values) => Ok(ReportSample::Sample(values)),
        SampleEnd::Empty => Ok(ReportSample::Empty),
        SampleEnd::Spent { count } => Ok(ReportSample::Spent { count }),
        SampleEnd::Overflow { node, kind } => Ok(ReportSample::Overflow {
            node,
            kind: report_kind(kind),
        }),
    }
}

/// The place of a walk, as a report names it.
pub fn report_kind(kind: PlaceKind) -> ReportKind
    ensures { place_of result ≡ kind }
{
    match kind {
        PlaceKind::Pivot(pivot) => ReportKind::Pivot(pivot),
        PlaceKind::Leaf => ReportKind::Leaf,
        PlaceKind::Run => ReportKind::Run,
    }
}
