//! The verdict on a pattern where runs are to end in quiet rest, by its moments.
#![tactic(auto)]

ghost use Rattle.std.specs.Prelude.{◌<◌, ◌≤◌, [], IfOk, length};
ghost use Rattle.ta_automaton.specs.Numbered.{OfPattern};
ghost use Rattle.ta_moment_tree.specs.Makers.{moments_of};
ghost use Rattle.ta_moments.specs.Refutes.{of_rest};
ghost use Rattle.ta_report.specs.Report.{VerdictFits};
ghost use Rattle.ta_verdict.specs.Rest.Budgets.{moments_within};
ghost use Rattle.ta_verdict.specs.Rest.Verdicts.{KeepsSafe, OwnVerdict};

use crate::report_kind;
use std::alloc::{AllocError, Global};
use ta_base::limits::MOST_NODES;
use ta_dense::Dictionary;
use ta_report::Verdict;
use ta_rest::RestFile;
use ta_walk::{Keeper, MomentEnd, visit_moments};
use ta_witness::own_run;

/// The verdict on the pattern of a number, from 0, within so many nodes of moments: whether some run
/// in which the pattern occurs comes to quiet rest where its last event happens. The keeper takes the
/// nodes of the trees of its ending.
pub fn verdict_by_moments<D: Dictionary, K: Keeper>(
    alloc: Global,
    rest: &RestFile,
    pattern: u32,
    silent: &[u32],
    nodes: u64,
    keeper: &mut K,
) -> Result<Verdict, AllocError>
    requires exists { pattern < length rest.now.ending.file.patterns }
    requires limit { nodes ≤ MOST_NODES }
    requires keeps { K.keeps keeper.old keeper.old [] }
    ensures holds { IfOk result (λ verdict. OfPattern rest.now.ending.file pattern (λ p. OwnVerdict rest.now (moments_within nodes silent.now) pattern p verdict)) }
    ensures fits { IfOk result (VerdictFits rest.now.ending.file) }
    ensures kept { IfOk result (λ verdict. OfPattern rest.now.ending.file pattern (λ p. KeepsSafe (moments_of rest.now.ending.file.automaton p (of_rest silent.now)) nodes (K.keeps keeper.old keeper.new) verdict)) }
{
    let end = visit_moments::<D, K>(alloc, &rest.ending, pattern, true, silent, nodes, keeper)?;
    match end {
        MomentEnd::Refuted { count, leaves } => Ok(Verdict::Safe {
            nodes: count,
            leaves,
        }),
        MomentEnd::Found { count, run } => Ok(Verdict::Unsafe {
            nodes: count,
            run: own_run(rest, run),
        }),
        MomentEnd::Spent { count } => Ok(Verdict::Spent { nodes: count }),
        MomentEnd::Overflow { node, kind } => Ok(Verdict::Overflow {
            node,
            kind: report_kind(kind),
        }),
    }
}
