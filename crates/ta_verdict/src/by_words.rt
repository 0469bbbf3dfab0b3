//! The verdict on a pattern by its schemas.
#![tactic(auto)]

ghost use Rattle.std.specs.Prelude.{ℕ, ◌≡◌, ◌<◌, ◌≤◌, false, IfOk, length, List, map, None};
ghost use Rattle.ta_automaton.specs.Narrow.{IsNarrow};
ghost use Rattle.ta_automaton.specs.Numbered.{OfPattern};
ghost use Rattle.ta_automaton.specs.declared.pattern.Pattern.{Pattern};
ghost use Rattle.ta_cert.specs.Certificates.{pair_of};
ghost use Rattle.ta_cert.specs.declared.line.Order.{Order};
ghost use Rattle.ta_encode.specs.PatternSearch.{pattern_search};
ghost use Rattle.ta_report.specs.Report.{VerdictFits};
ghost use Rattle.ta_walk.specs.Ends.{NodeOf, SolutionAt};
ghost use Rattle.ta_walk.specs.FoundOrders.{FoundOrders};
ghost use Rattle.ta_witness.specs.Witness.{IsSolution};
ghost use Rattle.ta_verdict.specs.Certificates.{tree_by, tree_size};
ghost use Rattle.ta_verdict.specs.Drafts.{DraftHasTree};
ghost use Rattle.ta_verdict.specs.Trees.{AreOrdersOf};
ghost use Rattle.ta_verdict.specs.Verdicts.{holds_by};

use crate::draft::Draft;
use crate::sampling::report_kind;
use crate::saying::unwitnessed;
use std::alloc::{AllocError, Global};
use std::thread::Threads;
use ta_base::limits::MOST_NODES;
use ta_dense::DenseDictionary;
use ta_encode::Solution;
use ta_report::Verdict;
use ta_rest::{Claim, ClaimTree};
use ta_scope::ScopedFile;
use ta_walk::{Idle, OrdersFound, VisitEnd, Work, visit};
use ta_witness::witness;

/// The verdict on the pattern of a number by its words, under the orders that were found. The lines of
/// its tree, if it is safe, stand at the end of a draft then.
pub fn words_verdict<R: Threads + Sync>(
    rt: &R,
    alloc: Global,
    scoped: &ScopedFile,
    found: &OrdersFound,
    pattern: u32,
    nodes: u64,
    draft: &mut Draft,
) -> Result<Verdict, AllocError>
    requires some { 0 < nodes }
    requires limit { nodes ≤ MOST_NODES }
    requires exists { pattern < length scoped.now.file.patterns }
    requires found { AreOrdersOf scoped.now.file found.now }
    requires narrow { IsNarrow scoped.now.file.automaton }
    ensures holds { IfOk result (λ verdict. OfPattern scoped.now.file pattern (λ p. holds_by false scoped.now.file nodes pattern p verdict)) }
    ensures fits { IfOk result (VerdictFits scoped.now.file) }
    ensures drafted { IfOk result (λ verdict. OfPattern scoped.now.file pattern (λ p. DraftHasTree (tree_by false scoped.now.file nodes) p verdict draft.old draft.new)) }
{
    let tree = ClaimTree::new(Claim::Safe, &scoped.file, pattern, &found.orders);
    let mut work = Work::new();
    match visit::<DenseDictionary, Draft, R, Idle>(
        rt,
        alloc,
        &tree,
        nodes,
        &Idle {},
        draft,
        &mut work,
    )? {
        VisitEnd::Refuted { count, leaves } => Ok(Verdict::Safe {
            nodes: count,
            leaves,
        }),
        VisitEnd::Found { count, solution } => verdict_of(alloc, scoped, count, &solution),
        VisitEnd::Spent { count } => Ok(Verdict::Spent { nodes: count }),
        VisitEnd::Overflow { node, kind } => Ok(Verdict::Overflow {
            node,
            kind: report_kind(kind),
        }),
    }
}

/// The verdict where the node of a number is the first whole one: the pattern occurs in the run of
/// its solution, unless a number of the run's replay leaves the range.
fn verdict_of(
    alloc: Global,
    scoped: &ScopedFile,
    node: u64,
    solution: &Solution,
) -> Result<Verdict, AllocError>
    requires solution { IsSolution scoped.now.file solution.now }
    requires narrow { IsNarrow scoped.now.file.automaton }
    ensures holds { (orders : List Order) (budget number : ℕ) (p : Pattern) → FoundOrders scoped.now.file.automaton orders → NodeOf (pattern_search scoped.now.file.automaton p (map pair_of orders)) budget node (SolutionAt (pattern_search scoped.now.file.automaton p (map pair_of orders)) number solution.now) → IfOk result (λ verdict. holds_by false scoped.now.file budget number p verdict) }
    ensures no_tree { IfOk result (λ verdict. tree_size verdict ≡ None) }
    ensures fits { IfOk result (VerdictFits scoped.now.file) }
{
    match witness(alloc, scoped, solution) {
        Ok(run) => Ok(Verdict::Unsafe { nodes: node, run }),
        Err(fault) => unwitnessed(node, fault),
    }
}
