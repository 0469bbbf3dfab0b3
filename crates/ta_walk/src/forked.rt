//! The walk of a claim in parallel: the calls `walk` and `visit`.
//!
//! The tree is visited twice at most. The first pass may abandon parts (part.rt). Its end counts
//! unless it says that the budget is spent at fewer nodes than the budget has: then a part was
//! abandoned whose result matters. The second pass is patient: it abandons none, so its end is
//! that of one thread; it doesn't fork. By the counts on the board it never happens, but no proof
//! says so. The nodes of a pass go to a keeper of their own and are handed on once its end counts.
//!
//! So a budget of n nodes begins at most (`MOST_FORKS` + 1) n nodes in the first pass and n in the
//! second one.
#![tactic(auto)]

ghost use Rattle.std.specs.Prelude.{◌≤◌, ◌≡◌, [], IfNone, IfOk, IfSome};
ghost use Rattle.ta_rest.specs.Trees.{search_of_claim};
ghost use Rattle.ta_walk.specs.Ends.{IsWalkEnd, IsVisitEnd, visit_count};
ghost use Rattle.ta_walk.specs.Work.{Rose, most_begun};
ghost use Rattle.ta_walk.specs.Inside.Parts.{IsSmallEnd, IsWholeEnd};
ghost use Rattle.ta_walk.specs.Inside.Whole.{HasFewFacts, visit_end};

use crate::end::{TreeEnd, VisitEnd, WalkEnd};
use crate::forking::{Setting, visit_list};
use crate::gate::{Gate, Idle};
use crate::keeper::{Keeper, Nodes, PartKeeper};
use crate::part::{BESIDE, Board, Part, Watch};
use crate::roots::roots_of;
use crate::work::Work;
use std::alloc::{AllocError, Global};
use std::thread::{Threads, available_parallelism};
use ta_base::List;
use ta_base::limits::MOST_NODES;
use ta_dense::Dictionary;
use ta_encode::Solution;
use ta_rest::ClaimTree;
use ta_words::{Element, Word};

/// Visits the tree of a claim on a pattern, at most so many nodes of it. Each start set begins with the
/// empty word. A node whose system is refuted is a leaf. At a vertex the word goes on to its children;
/// where it is complete, the least unknown that isn't whole is split. The visit ends where no word
/// is left, at the first whole node, at the first number that leaves 128 bits, or where the budget
/// is spent.
///
/// Parts of the tree are visited beside each other, where there are threads; the end is that of one
/// thread which visits it in order. The nodes are kept in memory: `visit` hands them on.
pub fn walk<D: Dictionary, R: Threads + Sync>(
    rt: &R,
    alloc: Global,
    tree: &ClaimTree<'_>,
    nodes: u64,
) -> Result<WalkEnd, AllocError>
    requires { nodes ≤ MOST_NODES }
    ensures { IfOk result (IsWalkEnd (search_of_claim tree.now) tree.now.number nodes) }
{
    walk_gated::<D, R, Idle>(rt, alloc, tree, nodes, &Idle {})
}

/// Visits the tree of a claim as `walk` does. Each half of a fork goes through the gate before its
/// first node.
pub fn walk_gated<D: Dictionary, R: Threads + Sync, G: Gate>(
    rt: &R,
    alloc: Global,
    tree: &ClaimTree<'_>,
    nodes: u64,
    gate: &G,
) -> Result<WalkEnd, AllocError>
    requires { nodes ≤ MOST_NODES }
    ensures { IfOk result (IsWalkEnd (search_of_claim tree.now) tree.now.number nodes) }
{
    let mut kept = Nodes {
        items: Vec::new(alloc),
    };
    let mut work = Work::new();
    match visit::<D, Nodes, R, G>(rt, alloc, tree, nodes, gate, &mut kept, &mut work)? {
        VisitEnd::Refuted { count, .. } => Ok(WalkEnd::Refuted {
            nodes: List::from_vec(kept.items),
            count,
        }),
        VisitEnd::Found { count, solution } => Ok(WalkEnd::Found { count, solution }),
        VisitEnd::Spent { count } => Ok(WalkEnd::Spent { count }),
        VisitEnd::Overflow { node, kind } => Ok(WalkEnd::Overflow { node, kind }),
    }
}

/// Visits the tree of a claim as `walk_gated` does, and hands the nodes on in order: no node stays in
/// memory but those that the keepers of the parts keep. It counts the nodes that it begins, in all
/// threads and in both passes, those of dropped parts included.
pub fn visit<'v, D: Dictionary, K: PartKeeper, R: Threads + Sync, G: Gate>(
    rt: &'v R,
    alloc: Global,
    tree: &'v ClaimTree<'v>,
    nodes: u64,
    gate: &'v G,
    keeper: &mut K,
    work: &mut Work,
) -> Result<VisitEnd, AllocError>
    requires limit { nodes ≤ MOST_NODES }
    requires keeps { K.keeps keeper.old keeper.old [] }
    ensures ends { IfOk result (IsVisitEnd (search_of_claim tree.now) tree.now.number nodes (K.keeps keeper.old keeper.new)) }
    ensures counted { IfOk result (λ end. Rose work.old.begun work.new.begun (visit_count end) (most_begun nodes)) }
{
    let setting = Setting {
        rt,
        alloc,
        tree,
        gate,
    };
    let mut patient = false;
    'passes: loop {
        let board = Board::new(alloc, nodes, most_beside(rt))?;
        let watch = Watch::new(&board, patient);
        let late = keeper.later(alloc)?;
        let starts = roots_of(alloc, tree)?;
        let part = visit_list::<D, K, R, G>(setting, watch, starts, nodes, late)?;
        let Part {
            end,
            keeper: late,
            begun,
        } = part;
        work.add(begun);
        if let Some(end) = whole_end(nodes, end) {
            keeper.append(alloc, late)?;
            return Ok(visit_end(tree.number, end));
        }
        patient = true;
    }
}

/// How many parts run beside a first one at most: no more than there are processors for, and none
/// where nobody knows how many there are.
pub fn most_beside<R: Threads>(rt: &R) -> u64
    ensures { result ≤ 63 }
{
    match available_parallelism(rt) {
        Ok(count) => (count.get() as u64).saturating_sub(1).min(BESIDE),
        Err(_) => 0,
    }
}

/// The end of a part, unless it stopped before its budget was spent.
fn whole_end(nodes: u64, end: TreeEnd<Element>) -> Option<TreeEnd<Element>>
    requires { IsSmallEnd nodes end }
    ensures some { IfSome result (λ whole. (whole ≡ end) × IsWholeEnd nodes whole) }
    ensures none { IfNone result (IsWholeEnd nodes end → ⊥) }
{
    match end {
        TreeEnd::Spent { count } if count < nodes => None,
        end => Some(end),
    }
}

/// The end of the visit of a pattern's tree for the pattern of this number: the facts of a whole node are
/// the word of its solution.
fn visit_end(pattern: u32, end: TreeEnd<Element>) -> VisitEnd
    requires { HasFewFacts end }
    ensures { result ≡ visit_end pattern end }
{
    match end {
        TreeEnd::Refuted { count, leaves } => VisitEnd::Refuted { count, leaves },
        TreeEnd::Found {
            count,
            start,
            facts,
            values,
        } => VisitEnd::Found {
            count,
            solution: Solution {
                pattern,
                start_mask: start,
                word: Word::of(facts.as_slice()),
                values,
            },
        },
        TreeEnd::Spent { count } => VisitEnd::Spent { count },
        TreeEnd::Overflow { node, kind } => VisitEnd::Overflow { node, kind },
    }
}
