//! The verdict on a pattern where runs are to end in a deadlock, by its schemas.
#![tactic(auto)]

ghost use Rattle.std.specs.Prelude.{ℕ, ◌<◌, ◌≤◌, ◌≡◌, [], IfOk, length};
ghost use Rattle.ta_automaton.specs.declared.pattern.Pattern.{Pattern};
ghost use Rattle.ta_report.specs.Report.{VerdictFits};
ghost use Rattle.ta_witness.specs.Runs.{IsRestSolution};
ghost use Rattle.ta_verdict.specs.Rest.Budgets.{words_within};
ghost use Rattle.ta_verdict.specs.Rest.Verdicts.{IsNotSafe, KeepsSafe, OwnVerdict};
ghost use Rattle.ta_rest.specs.RestSearch.{rest_search};
ghost use Rattle.ta_walk.specs.Ends.{NodeOf, SolutionAt};
ghost use Rattle.ta_automaton.specs.Narrow.{IsNarrow};
ghost use Rattle.ta_automaton.specs.Numbered.{OfPattern};

use crate::{report_kind, unwitnessed};
use std::alloc::{AllocError, Global};
use std::thread::Threads;
use ta_base::limits::MOST_NODES;
use ta_dense::Dictionary;
use ta_encode::Solution;
use ta_implied::Orders;
use ta_report::Verdict;
use ta_rest::{Claim, ClaimTree, RestFile};
use ta_walk::{Idle, PartKeeper, VisitEnd, Work, visit};
use ta_witness::rest_witness;

/// The verdict on the pattern of a number, from 0, within so many nodes of words: whether some run in which
/// the pattern occurs comes to rest where its last event happens. The keeper takes the nodes of the
/// tree of its ending.
pub fn rest_verdict<D: Dictionary, K: PartKeeper, R: Threads + Sync>(
    rt: &R,
    alloc: Global,
    rest: &RestFile,
    pattern: u32,
    nodes: u64,
    keeper: &mut K,
) -> Result<Verdict, AllocError>
    requires exists { pattern < length rest.now.ending.file.patterns }
    requires limit { nodes ≤ MOST_NODES }
    requires narrow { IsNarrow rest.now.ending.file.automaton }
    requires keeps { K.keeps keeper.old keeper.old [] }
    ensures holds { IfOk result (λ verdict. OfPattern rest.now.ending.file pattern (λ p. OwnVerdict rest.now (words_within nodes) pattern p verdict)) }
    ensures fits { IfOk result (VerdictFits rest.now.ending.file) }
    ensures kept { IfOk result (λ verdict. OfPattern rest.now.ending.file pattern (λ p. KeepsSafe (rest_search rest.now.ending.file.automaton p) nodes (K.keeps keeper.old keeper.new) verdict)) }
{
    let orders = Orders::new();
    let tree = ClaimTree::new(Claim::RestSafe, &rest.ending.file, pattern, &orders);
    let mut work = Work::new();
    match visit::<D, K, R, Idle>(rt, alloc, &tree, nodes, &Idle {}, keeper, &mut work)? {
        VisitEnd::Refuted { count, leaves } => Ok(Verdict::Safe {
            nodes: count,
            leaves,
        }),
        VisitEnd::Found { count, solution } => verdict_of(alloc, rest, count, &solution),
        VisitEnd::Spent { count } => Ok(Verdict::Spent { nodes: count }),
        VisitEnd::Overflow { node, kind } => Ok(Verdict::Overflow {
            node,
            kind: report_kind(kind),
        }),
    }
}

/// The verdict where the node of a number is the first whole one: a run of the pattern comes to rest,
/// that of the node's solution, unless a number of the run's replay leaves the range.
fn verdict_of(
    alloc: Global,
    rest: &RestFile,
    node: u64,
    solution: &Solution,
) -> Result<Verdict, AllocError>
    requires solution { IsRestSolution rest.now.ending.file solution.now }
    requires narrow { IsNarrow rest.now.ending.file.automaton }
    ensures holds { (budget number : ℕ) (p : Pattern) → NodeOf (rest_search rest.now.ending.file.automaton p) budget node (SolutionAt (rest_search rest.now.ending.file.automaton p) number solution.now) → IfOk result (λ verdict. OwnVerdict rest.now (words_within budget) number p verdict) }
    ensures fits { IfOk result (VerdictFits rest.now.ending.file) }
    ensures other { IfOk result IsNotSafe }
{
    match rest_witness(alloc, rest, solution) {
        Ok(run) => Ok(Verdict::Unsafe { nodes: node, run }),
        Err(fault) => unwitnessed(node, fault),
    }
}
