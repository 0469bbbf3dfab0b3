//! The visit of the tree at a cursor by one thread, up to its end or to the next fork.
#![tactic(auto)]

ghost use Rattle.std.specs.Prelude.{◌+◌, ◌<◌, ◌≤◌, ◌≡◌, ◌++◌, [], ◌∷◌, IfOk, IfSome, List, MatchOption, Some, None, length, true};
ghost use Rattle.ta_cert.specs.declared.line.Node.{Node};
ghost use Rattle.ta_encode.specs.Search.{Pending, parts};
ghost use Rattle.ta_encode.specs.Cursors.{GoesOn, IsShared, IsWithin, IsWord, Within, here, left_at};
ghost use Rattle.ta_simplex.specs.Branch.{IsBranch};
ghost use Rattle.ta_walk.specs.Visit.{NodeAt};
ghost use Rattle.ta_walk.specs.declared.end.TreeEnd.TheVariants.{Found};
ghost use Rattle.ta_walk.specs.Inside.Counted.{RoseBy, StretchCounted};
ghost use Rattle.ta_walk.specs.Inside.Solving.{OnInner, SolvedAt};
ghost use Rattle.ta_walk.specs.Inside.Parts.{IsSmallStretch, IsWholeStretch, OnShared, HasFewLeft, StretchEnds};

use crate::end::TreeEnd;
use crate::keeper::Keeper;
use crate::maker::Maker;
use crate::node::{Solved, grow, solve_node};
use crate::part::Watch;
use crate::walking::leaves_with;
use crate::work::Work;
use std::alloc::{AllocError, Global};
use std::mem;
use ta_base::List;
use ta_base::limits::MOST_NODES;
use ta_cert::Node;
use ta_dense::Dictionary;
use ta_encode::{Cursor, Tree, Written, ask_of};
use ta_simplex::Branch;

/// Where a visit stands, and what it goes on from.
#[derive(Drop)]
pub(crate) struct Frontier<D: Dictionary, F: Copy + Drop, E: Drop> {
    /// The node that comes next, and the words that are left behind it.
    pub cursor: Cursor<F>,
    /// The system that was written last.
    pub kept: E,
    /// The dictionaries on the way to its node.
    pub branch: Branch<D>,
}

/// What a visit comes to before another thread is asked.
#[derive(Drop)]
pub(crate) enum Stretch<F: Copy + Drop> {
    /// It ended.
    Ended(TreeEnd<F>),
    /// So many nodes were visited, so many of them leaves, and a cursor gave words to this one.
    Shared {
        count: u64,
        leaves: u64,
        later: Cursor<F>,
    },
}

/// Visits the words that are left at a cursor, at most so many nodes, and hands each node on as it
/// comes. It stops where its watch says so, and where words are given to another cursor.
pub(crate) fn visit_stretch<D: Dictionary, T: Maker, K: Keeper>(
    alloc: Global,
    tree: &T,
    watch: Watch<'_>,
    at: &mut Frontier<D, T::Fact, T::Kept>,
    nodes: u64,
    keeper: &mut K,
    work: &mut Work,
) -> Result<Stretch<T::Fact>, AllocError>
    requires stands { HasFewLeft (T.search tree.now) nodes at.old.cursor }
    requires limit { nodes ≤ MOST_NODES }
    requires kept { T.is_kept tree.now at.old.kept }
    requires branch { IsBranch D.tableau D.pivot_of (T.system_of at.old.kept).rows at.old.branch }
    ensures ends { (first : K) (before : List Node) → K.keeps first keeper.old before → IfOk result
        (StretchEnds (T.search tree.now) (left_at (T.search tree.now) at.old.cursor) nodes at.new.cursor (λ more. K.keeps first keeper.new (before ++ more))) }
    ensures small { IfOk result (IsSmallStretch (T.search tree.now) nodes at.new.cursor) }
    ensures kept { IfOk result (OnShared (T.is_kept tree.now at.new.kept)) }
    ensures branch { IfOk result (OnShared (IsBranch D.tableau D.pivot_of (T.system_of at.new.kept).rows at.new.branch)) }
    ensures patient { watch.entry.patient ≡ true → IfOk result (IsWholeStretch nodes) }
    ensures forks { IfOk result (OnShared (0 < watch.entry.forks)) }
    ensures counted { IfOk result (StretchCounted nodes work.old.begun work.new.begun) }
{
    let mut leaves = 0;
    for before in 0..nodes {
        if watch.can_stop(before) {
            return Ok(Stretch::Ended(TreeEnd::Spent { count: before }));
        }
        let count = before + 1;
        match solve_next(alloc, tree, &at.cursor, &mut at.kept, &mut at.branch, work)? {
            Solved::OutOfRange(kind) => {
                return Ok(Stretch::Ended(TreeEnd::Overflow { node: count, kind }));
            }
            Solved::Whole(values) => {
                let end = found_at(alloc, &at.cursor, count, values)?;
                return Ok(Stretch::Ended(end));
            }
            Solved::Inner(node) => {
                let more = go_on(tree, &mut at.cursor, &node)?;
                leaves = leaves_with(leaves, &node);
                keeper.take(alloc, node)?;
                if !more {
                    return Ok(Stretch::Ended(TreeEnd::Refuted { count, leaves }));
                }
                if let Some(later) = give_away(alloc, tree, watch, count, &mut at.cursor)? {
                    return Ok(Stretch::Shared {
                        count,
                        leaves,
                        later,
                    });
                }
            }
        }
    }
    Ok(Stretch::Ended(TreeEnd::Spent { count: nodes }))
}

/// Writes the system of the node at a cursor on from the one that is kept, and solves it. The node
/// counts as begun.
fn solve_next<D: Dictionary, T: Maker>(
    alloc: Global,
    tree: &T,
    cursor: &Cursor<T::Fact>,
    kept: &mut T::Kept,
    branch: &mut Branch<D>,
    work: &mut Work,
) -> Result<Solved, AllocError>
    requires few { length cursor.now.bounds.items ≤ MOST_NODES }
    requires word { IsWord (T.search tree.now) (here cursor.now) }
    requires kept { T.is_kept tree.now kept.old }
    requires branch { IsBranch D.tableau D.pivot_of (T.system_of kept.old).rows branch.old }
    ensures kept { IfOk result (λ _. T.is_kept tree.now kept.new) }
    ensures branch { IfOk result (λ solved. OnInner solved (IsBranch D.tableau D.pivot_of (T.system_of kept.new).rows branch.new)) }
    ensures solved { IfOk result (SolvedAt (T.search tree.now) (here cursor.now)) }
    ensures counted { IfOk result (λ _. RoseBy work.old.begun 1 work.new.begun) }
{
    let last = mem::replace(kept, tree.nothing(alloc));
    let Written { kept: next, same } = grow(alloc, tree, cursor, last)?;
    *kept = next;
    let solved = solve_node(alloc, tree, cursor, kept, same, branch, work)?;
    Ok(solved)
}

/// The end at the whole node of a number, which stands at a cursor.
fn found_at<F: Copy + Drop>(
    alloc: Global,
    cursor: &Cursor<F>,
    count: u64,
    values: List<i128>,
) -> Result<TreeEnd<F>, AllocError>
    ensures { IfOk result (λ end. end ≡ Found count cursor.now.start cursor.now.facts.items values) }
{
    let facts = Vec::from_slice(alloc, cursor.facts())?;
    Ok(TreeEnd::Found {
        count,
        start: cursor.start(),
        facts: List::from_vec(facts),
        values,
    })
}

/// Gives the last words of a cursor to another one, where a processor is free and words are left
/// behind one without bounds.
fn give_away<T: Tree>(
    alloc: Global,
    tree: &T,
    watch: Watch<'_>,
    count: u64,
    cursor: &mut Cursor<T::Fact>,
) -> Result<Option<Cursor<T::Fact>>, AllocError>
    requires { IsWithin (T.search tree.now) cursor.old }
    ensures shared { IfOk result (λ later. MatchOption later (cursor.new ≡ cursor.old) (IsShared (T.search tree.now) cursor.old cursor.new)) }
    ensures forks { IfOk result (λ later. IfSome later (λ _. 0 < watch.entry.forks)) }
{
    if !watch.looks_around(count) || !cursor.bounds().is_empty() || !watch.goes_beside() {
        return Ok(None);
    }
    let later = cursor.share(alloc, tree)?;
    if later.is_none() {
        watch.stays();
    }
    Ok(later)
}

/// Goes on behind the node that stands at a cursor, and says whether another comes.
fn go_on<T: Tree>(tree: &T, cursor: &mut Cursor<T::Fact>, node: &Node) -> Result<bool, AllocError>
    requires within { IsWithin (T.search tree.now) cursor.old }
    requires stands { NodeAt (T.search tree.now) (here cursor.old) node.now }
    ensures { (w : Pending T.Fact) (words : List (Pending T.Fact)) → Within (T.search tree.now) cursor.old (w ∷ words)
        → GoesOn (T.search tree.now) cursor.new (parts (T.search tree.now) w node.now ++ words) result }
{
    if let Some(ask) = ask_of(node) {
        return cursor.ask(tree, ask);
    }
    match node {
        Node::Split { unknown, floor } => {
            cursor.split(*unknown, *floor)?;
            Ok(true)
        }
        Node::Leaf(_) | Node::Extend | Node::Guard(_) | Node::Order { .. } | Node::Stuck(_) => {
            cursor.leave(tree)
        }
    }
}
