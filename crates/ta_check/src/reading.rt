//! The line of a node at a place in the trees of any search.
#![tactic(auto)]

ghost use Rattle.std.specs.Prelude.{◌≡◌, OnOk};
ghost use Rattle.ta_cert.specs.Lines.{ArePairs, IsNode, IsSplit};
ghost use Rattle.ta_cert.specs.declared.line.Node.TheVariants.{Leaf, Split};
ghost use Rattle.ta_encode.specs.Asking.{ask_node};
ghost use Rattle.ta_encode.specs.InTrees.{IsAllWithin};
ghost use Rattle.ta_check.specs.Positions.{NodeTaken, unasked_in};

use crate::leaf::judge_leaf;
use std::alloc::Global;
use ta_cert::{CertFault, Node};
use ta_encode::{Ask, Place, Tree};

/// Takes the line of a node at a place, and says whether another node comes.
pub(crate) fn read_node<T: Tree>(
    alloc: Global,
    tree: &T,
    place: &mut Place<T::Fact>,
    kept: &mut T::Kept,
    number: u64,
    node: &Node,
) -> Result<bool, CertFault>
    requires within { IsAllWithin (T.search tree.now) place.old }
    requires kept { T.is_kept tree.now kept.old }
    requires form { IsNode node.now }
    ensures kept { OnOk result (T.is_kept tree.now kept.new) }
    ensures taken { NodeTaken (T.search tree.now) place.old number node.now place.new result }
{
    match node {
        Node::Leaf(multipliers) => {
            read_leaf(alloc, tree, place, kept, number, multipliers.as_slice())
        }
        Node::Split { unknown, floor } => read_split(tree, place, number, *unknown, *floor),
        Node::Extend => read_ask(alloc, tree, place, number, Ask::Extend),
        Node::Guard(guard) => read_ask(alloc, tree, place, number, Ask::Guard(*guard)),
        Node::Order { before, after } => read_ask(
            alloc,
            tree,
            place,
            number,
            Ask::Order {
                before: *before,
                after: *after,
            },
        ),
        Node::Stuck(rule) => read_ask(alloc, tree, place, number, Ask::Stuck(*rule)),
    }
}

/// Takes a node that asks.
fn read_ask<T: Tree>(
    alloc: Global,
    tree: &T,
    place: &mut Place<T::Fact>,
    number: u64,
    ask: Ask,
) -> Result<bool, CertFault>
    requires { IsAllWithin (T.search tree.now) place.old }
    ensures { NodeTaken (T.search tree.now) place.old number (ask_node ask) place.new result }
{
    let start = place.cursor().start();
    if !tree.may_ask(start, place.cursor().facts(), ask) {
        return Err(unasked_in(number, ask));
    }
    let more = place.ask(alloc, tree, ask)?;
    Ok(more)
}

/// Takes a split.
fn read_split<T: Tree>(
    tree: &T,
    place: &mut Place<T::Fact>,
    number: u64,
    unknown: u32,
    floor: i128,
) -> Result<bool, CertFault>
    requires within { IsAllWithin (T.search tree.now) place.old }
    requires form { IsSplit unknown floor }
    ensures { NodeTaken (T.search tree.now) place.old number (Split unknown floor) place.new result }
{
    let start = place.cursor().start();
    if unknown >= tree.unknown_count(start, place.cursor().facts()) {
        return Err(CertFault::SplitVariable(number));
    }
    place.split(tree, unknown, floor)?;
    Ok(true)
}

/// Takes a leaf.
fn read_leaf<T: Tree>(
    alloc: Global,
    tree: &T,
    place: &mut Place<T::Fact>,
    kept: &mut T::Kept,
    number: u64,
    multipliers: &[(u32, i128)],
) -> Result<bool, CertFault>
    requires within { IsAllWithin (T.search tree.now) place.old }
    requires kept { T.is_kept tree.now kept.old }
    requires form { ArePairs 0 multipliers.now }
    ensures kept { OnOk result (T.is_kept tree.now kept.new) }
    ensures taken { NodeTaken (T.search tree.now) place.old number (Leaf multipliers.now) place.new result }
{
    judge_leaf(alloc, tree, place.cursor(), kept, number, multipliers)?;
    let more = place.leave(alloc, tree)?;
    Ok(more)
}

/// The error of a node that may not ask this, in the line of this number.
fn unasked_in(line: u64, ask: Ask) -> CertFault
    ensures { result ≡ unasked_in line ask }
{
    match ask {
        Ask::Extend => CertFault::ExtendComplete(line),
        Ask::Guard(_) | Ask::Order { .. } | Ask::Stuck(_) => CertFault::Question(line),
    }
}
