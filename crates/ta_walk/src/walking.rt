//! The visit of a search, by one thread.
#![tactic(auto)]

ghost use Rattle.std.specs.Prelude.{◌+◌, ◌<◌, ◌≤◌, ◌≡◌, [], ◌∷◌, ◌++◌, IfOk, List};
ghost use Rattle.std.specs.List.{AllByRecursion};
ghost use Rattle.ta_linear.specs.declared.row.Row.{Row};
ghost use Rattle.ta_encode.specs.Search.{Pending, parts};
ghost use Rattle.ta_encode.specs.InTrees.{AllGoOn, AllWithin, IsAllWithin, here_at};
ghost use Rattle.ta_simplex.specs.Branch.{IsBranch};
ghost use Rattle.ta_walk.specs.Visit.{NodeAt};
ghost use Rattle.ta_walk.specs.Ends.{IsTreeEnd, IsUnbounded, leaf_count, node_count};
ghost use Rattle.ta_walk.specs.Inside.Counted.{RoseBy};

use crate::end::TreeEnd;
use crate::keeper::Keeper;
use crate::maker::Maker;
use crate::node::{Solved, grow, solve_node};
use crate::work::Work;
use std::alloc::{AllocError, Global};
use ta_base::List;
use ta_base::limits::MOST_NODES;
use ta_cert::Node;
use ta_dense::Dictionary;
use ta_encode::{Place, Tree, Written, ask_of};
use ta_simplex::Branch;

/// Visits the trees of a search, one for each start with which it begins, at most so many nodes of
/// them, and hands each node on as it comes.
pub fn visit_tree<D: Dictionary, T: Maker, K: Keeper>(
    alloc: Global,
    tree: &T,
    nodes: u64,
    keeper: &mut K,
) -> Result<TreeEnd<T::Fact>, AllocError>
    requires roots { AllByRecursion IsUnbounded (T.search tree.now).roots }
    requires limit { nodes ≤ MOST_NODES }
    requires keeps { K.keeps keeper.old keeper.old [] }
    ensures { IfOk result (IsTreeEnd (T.search tree.now) nodes (K.keeps keeper.old keeper.new)) }
{
    let mut branch: Branch<D> = Branch::new(alloc);
    let mut work = Work::new();
    visit_tree_along(alloc, tree, nodes, &mut branch, keeper, &mut work)
}

/// Visits the trees of a search as `visit_tree` does, along a branch of no system, which tells
/// afterwards what the solving took, and counts the nodes that it begins: those that it visits, and
/// no others.
pub fn visit_tree_along<D: Dictionary, T: Maker, K: Keeper>(
    alloc: Global,
    tree: &T,
    nodes: u64,
    branch: &mut Branch<D>,
    keeper: &mut K,
    work: &mut Work,
) -> Result<TreeEnd<T::Fact>, AllocError>
    requires roots { AllByRecursion IsUnbounded (T.search tree.now).roots }
    requires limit { nodes ≤ MOST_NODES }
    requires branch { (rows : List Row) → IsBranch D.tableau D.pivot_of rows branch.old }
    requires keeps { K.keeps keeper.old keeper.old [] }
    ensures ends { IfOk result (IsTreeEnd (T.search tree.now) nodes (K.keeps keeper.old keeper.new)) }
    ensures counted { IfOk result (λ end. RoseBy work.old.begun (node_count end) work.new.begun) }
    ensures most { work.new.begun ≤ work.old.begun + nodes }
{
    let Some(mut place) = Place::first(alloc, tree) else {
        return Ok(TreeEnd::Refuted {
            count: 0,
            leaves: 0,
        });
    };
    let mut kept = tree.nothing(alloc);
    let mut leaves = 0;
    for before in 0..nodes {
        let count = before + 1;
        let Written { kept: next, same } = grow(alloc, tree, place.cursor(), kept)?;
        kept = next;
        match solve_node(alloc, tree, place.cursor(), &kept, same, branch, work)? {
            Solved::OutOfRange(kind) => return Ok(TreeEnd::Overflow { node: count, kind }),
            Solved::Whole(values) => {
                return Ok(TreeEnd::Found {
                    count,
                    start: place.cursor().start(),
                    facts: List::from_vec(place.into_facts()),
                    values,
                });
            }
            Solved::Inner(node) => {
                let more = go_on(alloc, tree, &mut place, &node)?;
                leaves = leaves_with(leaves, &node);
                keeper.take(alloc, node)?;
                if !more {
                    return Ok(TreeEnd::Refuted { count, leaves });
                }
            }
        }
    }
    Ok(TreeEnd::Spent { count: nodes })
}

/// How many leaves there are with one more node.
pub(crate) fn leaves_with(leaves: u64, node: &Node) -> u64
    requires { leaves < MOST_NODES }
    ensures { result ≡ leaves + leaf_count (node.now ∷ []) }
{
    match node {
        Node::Leaf(_) => leaves + 1,
        Node::Extend | Node::Split { .. } | Node::Guard(_) | Node::Order { .. } | Node::Stuck(_) =>
            leaves,
    }
}

/// Goes on behind the node that stands at a place, and says whether another comes.
fn go_on<T: Tree>(
    alloc: Global,
    tree: &T,
    place: &mut Place<T::Fact>,
    node: &Node,
) -> Result<bool, AllocError>
    requires within { IsAllWithin (T.search tree.now) place.old }
    requires stands { NodeAt (T.search tree.now) (here_at place.old) node.now }
    ensures { (w : Pending T.Fact) (words : List (Pending T.Fact)) → AllWithin (T.search tree.now) place.old (w ∷ words) → AllGoOn (T.search tree.now) place.new (parts (T.search tree.now) w node.now ++ words) result }
{
    if let Some(ask) = ask_of(node) {
        return place.ask(alloc, tree, ask);
    }
    match node {
        Node::Split { unknown, floor } => {
            place.split(tree, *unknown, *floor)?;
            Ok(true)
        }
        Node::Leaf(_) | Node::Extend | Node::Guard(_) | Node::Order { .. } | Node::Stuck(_) => {
            place.leave(alloc, tree)
        }
    }
}
