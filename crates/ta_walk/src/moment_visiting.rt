//! The visit of the moments of a pattern.
#![tactic(auto)]

ghost use Rattle.std.specs.Prelude.{◌≡◌, ◌<◌, ◌≤◌, [], IfOk, length};
ghost use Rattle.ta_automaton.specs.Numbered.{OfPattern};
ghost use Rattle.ta_moments.specs.Refutes.{Asking};
ghost use Rattle.ta_walk.specs.MomentEnds.{EndFits, IsMomentEnd};

use crate::moment_end::MomentEnd;
use crate::moment_maker::MomentMaker;
use crate::showing::{end_at, node_again, read_all};
use crate::{Keeper, TreeEnd, visit_tree};
use std::alloc::{AllocError, Global};
use ta_base::limits::MOST_NODES;
use ta_dense::Dictionary;
use ta_moment_tree::MomentTree;
use ta_moments::{no_question_leaves_nothing, questions_may_be_asked};
use ta_scope::ScopedFile;

/// Visits the trees of questions of the pattern of this number, one for each candidate, at most so many
/// nodes of them, and hands each node on as it comes. At rest it is asked of rules too, with these
/// silent places. A node whose system is refuted is a leaf. At a vertex the next question is asked;
/// where there is none, the values are taken, or these times their least common denominator, or the
/// least unknown that isn't whole is split.
pub fn visit_moments<D: Dictionary, K: Keeper>(
    alloc: Global,
    scoped: &ScopedFile,
    number: u32,
    rest: bool,
    silent: &[u32],
    nodes: u64,
    keeper: &mut K,
) -> Result<MomentEnd, AllocError>
    requires exists { number < length scoped.now.file.patterns }
    requires limit { nodes ≤ MOST_NODES }
    requires keeps { K.keeps keeper.old keeper.old [] }
    ensures ends { (asking : Asking) → asking.rest ≡ rest → asking.silent ≡ silent.now → IfOk result (λ end. OfPattern scoped.now.file number (λ p. IsMomentEnd scoped.now.file number p asking nodes (K.keeps keeper.old keeper.new) end)) }
    ensures fits { IfOk result (EndFits scoped.now.file) }
{
    no_question_leaves_nothing();
    questions_may_be_asked();
    let tree = MomentTree::new(&scoped.file, number, rest, silent);
    let maker = MomentMaker { tree };
    match visit_tree::<D, MomentMaker<'_>, K>(alloc, &maker, nodes, keeper)? {
        TreeEnd::Refuted { count, leaves } => Ok(MomentEnd::Refuted { count, leaves }),
        TreeEnd::Found {
            count,
            start,
            facts,
            values,
        } => {
            read_all(values.as_slice());
            let kept = node_again(alloc, &tree, start, facts.as_slice())?;
            end_at(alloc, scoped, number, count, &kept, values.as_slice())
        }
        TreeEnd::Spent { count } => Ok(MomentEnd::Spent { count }),
        TreeEnd::Overflow { node, kind } => Ok(MomentEnd::Overflow { node, kind }),
    }
}
