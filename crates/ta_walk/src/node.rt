//! The node at a cursor: its system is written, solved and turned into a node.
//!
//! `grow` writes the system on from that of the node before and says how many rows both share;
//! `solve_node` goes on from the last dictionary within these rows. Multipliers that refute the
//! system are summed as the checker sums them (`check_leaf`) before the node becomes a leaf: that
//! sum may leave 128 bits though no pivot did, and then the walk ends here. So the checker accepts
//! each leaf that is handed on.
#![tactic(auto)]

ghost use Rattle.std.specs.Prelude.{◌≡◌, ◌<◌, ◌≤◌, ◌^◌, IfOk, length};
ghost use Rattle.ta_encode.specs.Code.{SystemAt};
ghost use Rattle.ta_encode.specs.Marks.{SameRows};
ghost use Rattle.ta_encode.specs.Search.{Pending, Search};
ghost use Rattle.ta_encode.specs.Asking.{ask_node};
ghost use Rattle.ta_encode.specs.Cursors.{IsWord, here};
ghost use Rattle.ta_encode.specs.TreeCalls.{IsSmall};
ghost use Rattle.ta_dense.specs.Slack.{variables};
ghost use Rattle.ta_simplex.specs.Branch.{IsBranch, SharesRows};
ghost use Rattle.ta_simplex.specs.Refuted.{IsRefuted};
ghost use Rattle.ta_walk.specs.Inside.Counted.{RoseBy};
ghost use Rattle.ta_walk.specs.Inside.Solving.{OnInner, SolvedAt};
ghost use Rattle.ta_walk.specs.Visit.{VertexAt};

use crate::end::PlaceKind;
use crate::maker::Maker;
use crate::vertex::{first_split, whole_values};
use crate::work::Work;
use std::alloc::{AllocError, Global};
use ta_base::List;
use ta_base::limits::MOST_NODES;
use ta_cert::Node;
use ta_dense::Dictionary;
use ta_encode::{Ask, Cursor, Tree, Written};
use ta_farkas::check_leaf;
use ta_linear::System;
use ta_simplex::{Branch, End, Fraction, SolveFault};

/// What solving a node's system comes to.
#[derive(Drop)]
pub(crate) enum Solved {
    /// The node that stands there.
    Inner(Node),
    /// A whole node, with its values.
    Whole(List<i128>),
    /// A number left 128 bits.
    OutOfRange(PlaceKind),
}

/// The system of the node at a cursor, written on from that of the node before.
pub(crate) fn grow<T: Tree>(
    alloc: Global,
    tree: &T,
    cursor: &Cursor<T::Fact>,
    kept: T::Kept,
) -> Result<Written<T::Kept>, AllocError>
    requires word { IsWord (T.search tree.now) (here cursor.now) }
    requires kept { T.is_kept tree.now kept }
    ensures kept { IfOk result (λ written. T.is_kept tree.now written.kept) }
    ensures at { IfOk result (λ written. T.is_at tree.now (here cursor.now).start (here cursor.now).past written.kept) }
    ensures system { IfOk result (λ written. SystemAt (T.search tree.now) (here cursor.now) (T.system_of written.kept)) }
    ensures same { IfOk result (λ written. SameRows (T.system_of kept).rows written.same (T.system_of written.kept).rows) }
    ensures small { IfOk result (λ written. IsSmall cursor.now.bounds.items (T.system_of written.kept)) }
{
    tree.encode(alloc, cursor.start(), cursor.facts(), cursor.bounds(), kept)
}

/// Solves the system that is kept of the node at a cursor, so many of whose first rows are those of
/// the node before, along the branch on which it stands. The node counts as begun, whatever comes of
/// it.
pub(crate) fn solve_node<D: Dictionary, T: Maker>(
    alloc: Global,
    tree: &T,
    cursor: &Cursor<T::Fact>,
    kept: &T::Kept,
    same: usize,
    branch: &mut Branch<D>,
    work: &mut Work,
) -> Result<Solved, AllocError>
    requires few { length cursor.now.bounds.items ≤ MOST_NODES }
    requires word { IsWord (T.search tree.now) (here cursor.now) }
    requires kept { T.is_kept tree.now kept.now }
    requires at { T.is_at tree.now (here cursor.now).start (here cursor.now).past kept.now }
    requires small { IsSmall cursor.now.bounds.items (T.system_of kept.now) }
    requires system { SystemAt (T.search tree.now) (here cursor.now) (T.system_of kept.now) }
    requires branch { SharesRows D.tableau D.pivot_of branch.old same (T.system_of kept.now).rows }
    ensures branch { IfOk result (λ solved. OnInner solved (IsBranch D.tableau D.pivot_of (T.system_of kept.now).rows branch.new)) }
    ensures solved { IfOk result (SolvedAt (T.search tree.now) (here cursor.now)) }
    ensures counted { RoseBy work.old.begun 1 work.new.begun }
{
    work.add(1);
    let system = tree.system(kept);
    match branch.solve(alloc, system, same) {
        Err(SolveFault::Memory) => Err(AllocError),
        Err(SolveFault::Overflow(pivot)) => Ok(Solved::OutOfRange(PlaceKind::Pivot(pivot))),
        Ok(End::Refuted(multipliers)) => Ok(take_refuted::<T::Fact>(system, multipliers)),
        Ok(End::Vertex(values)) => take_vertex(alloc, tree, cursor, kept, values.as_slice()),
    }
}

/// What multipliers that refute a node's system come to: a leaf, unless its check leaves the range.
fn take_refuted<F>(system: &System, multipliers: List<(u32, i128)>) -> Solved
    requires few { variables system.now < 2 ^ 32 }
    requires refuted { IsRefuted system.now multipliers }
    ensures { (s : Search F) (w : Pending F) → SystemAt s w system.now → SolvedAt s w result }
{
    match check_leaf(system, multipliers.as_slice()) {
        Ok(()) => Solved::Inner(Node::Leaf(multipliers)),
        Err(_) => Solved::OutOfRange(PlaceKind::Leaf),
    }
}

/// What a vertex of a node's system comes to: the node asks, or all values are whole, or whole ones
/// are taken in their place, or an unknown is split.
fn take_vertex<T: Maker>(
    alloc: Global,
    tree: &T,
    cursor: &Cursor<T::Fact>,
    kept: &T::Kept,
    values: &[Fraction],
) -> Result<Solved, AllocError>
    requires few { length values.now < 2 ^ 32 }
    requires word { IsWord (T.search tree.now) (here cursor.now) }
    requires kept { T.is_kept tree.now kept.now }
    requires at { T.is_at tree.now (here cursor.now).start (here cursor.now).past kept.now }
    requires vertex { VertexAt (T.search tree.now) (here cursor.now) values.now }
    ensures { IfOk result (SolvedAt (T.search tree.now) (here cursor.now)) }
{
    let start = cursor.start();
    let facts = cursor.facts();
    if let Some(ask) = tree.question(alloc, start, facts, kept, values)? {
        return Ok(Solved::Inner(asking(ask)));
    }
    let Some((unknown, floor)) = first_split(values) else {
        return Ok(Solved::Whole(whole_values(alloc, values)?));
    };
    match tree.scaled(alloc, start, facts, cursor.bounds(), kept, values)? {
        Some(numbers) => Ok(Solved::Whole(numbers)),
        None => Ok(Solved::Inner(Node::Split { unknown, floor })),
    }
}

/// The node that asks this.
fn asking(ask: Ask) -> Node
    ensures { result ≡ ask_node ask }
{
    match ask {
        Ask::Extend => Node::Extend,
        Ask::Guard(guard) => Node::Guard(guard),
        Ask::Order { before, after } => Node::Order { before, after },
        Ask::Stuck(rule) => Node::Stuck(rule),
    }
}
