//! What a node asks at a vertex.
#![tactic(auto)]

ghost use Rattle.std.specs.Prelude.{◌≡◌, ◌≤◌, ◌^◌, [], IfOk, length, reverse};
ghost use Rattle.ta_encode.specs.Asking.{ask_node};
ghost use Rattle.ta_encode.specs.Cursors.{node_at};
ghost use Rattle.ta_encode.specs.Search.{Comes};
ghost use Rattle.ta_moments.specs.Questions.{next_question};
ghost use Rattle.ta_moments.specs.Searched.{asking_node, candidate_of};
ghost use Rattle.ta_moments.specs.Vertices.{values_of as values_of_parts};
ghost use Rattle.ta_moment_tree.specs.Systems.{bounded_node};
ghost use Rattle.ta_moment_tree.specs.Kept.{NodeIs};
ghost use Rattle.ta_moment_tree.specs.Trees.{asking_of, search_of_moments};
ghost use Rattle.ta_simplex.specs.Vertex.{parts_of};
ghost use Rattle.ta_walk.specs.Visit.{IsAsked};

use crate::vertex_question;
use std::alloc::{AllocError, Global};
use ta_encode::Ask;
use ta_moment_tree::{MomentEncoding, MomentTree};
use ta_moments::{Fact, Question, questions_may_be_asked};
use ta_simplex::Fraction;

/// What a node asks by a question.
fn ask_of(question: Question) -> Ask
    ensures { ask_node result ≡ asking_node question }
{
    match question {
        Question::OfGuard(guard) => Ask::Guard(guard),
        Question::OfOrder(before, after) => Ask::Order { before, after },
        Question::OfStuck(rule) => Ask::Stuck(rule),
    }
}

/// Facts in the other order.
pub(crate) fn newest_first(alloc: Global, facts: &[Fact]) -> Result<Vec<Fact>, AllocError>
    ensures { IfOk result (λ past. past.items ≡ reverse facts.now) }
{
    let mut past = Vec::from_slice(alloc, facts)?;
    past.reverse();
    Ok(past)
}

/// The question at a vertex of the node with these facts, the newest first.
fn question_at(
    alloc: Global,
    tree: MomentTree<'_>,
    start: u8,
    past: &[Fact],
    node: &MomentEncoding<'_>,
    values: &[Fraction],
) -> Result<Option<Question>, AllocError>
    requires comes { Comes (search_of_moments tree) start past.now }
    requires node { NodeIs tree.task.automaton.now tree.task.pattern.now tree.silent.now (candidate_of start) past.now node.now }
    requires values { length values.now ≤ 2 ^ 32 }
    ensures { IfOk result (λ question. question ≡ next_question tree.entry.task.automaton.now tree.entry.task.pattern.now (asking_of tree.entry) (bounded_node (candidate_of start) past.now []) (values_of_parts (parts_of values.now))) }
{
    let _start = start;
    vertex_question(alloc, node, past, tree.rest, tree.silent, values)
}

/// What the node asks at a vertex of it with some bounds.
pub(crate) fn asked_at(
    alloc: Global,
    tree: MomentTree<'_>,
    start: u8,
    facts: &[Fact],
    node: &MomentEncoding<'_>,
    values: &[Fraction],
) -> Result<Option<Ask>, AllocError>
    requires comes { Comes (search_of_moments tree) start (reverse facts.now) }
    requires node { NodeIs tree.task.automaton.now tree.task.pattern.now tree.silent.now (candidate_of start) (reverse facts.now) node.now }
    requires values { length values.now ≤ 2 ^ 32 }
    ensures { IfOk result (IsAsked (search_of_moments tree.entry) (node_at start facts.now []) values.now) }
{
    let past = newest_first(alloc, facts)?;
    questions_may_be_asked();
    match question_at(alloc, tree, start, past.as_slice(), node, values)? {
        None => Ok(None),
        Some(question) => Ok(Some(ask_of(question))),
    }
}
