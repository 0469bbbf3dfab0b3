//! The values of a basic feasible solution times their least common denominator, where they may be
//! taken.
//!
//! Where nothing is asked at values that are not all integral, the multiples are natural numbers,
//! and often a solution: a row without a positive constant still holds there. Another row may not.
//! So they are taken only if the values of all rows of the node and its bounds are in range and at
//! least 0 there, and nothing is asked there. Then no branching is needed.
#![tactic(auto)]

ghost use Rattle.std.specs.Prelude.{ℕ, ◌≡◌, ◌≤◌, ◌^◌, ◌++◌, IfOk, List as Items, Option, Some, is_some, length, not, pos};
ghost use Rattle.std.specs.List.{list_all};
ghost use Rattle.ta_encode.specs.Inside.Lines.{IsBehind};
ghost use Rattle.ta_encode.specs.declared.meaning.Bound.{Bound as KnownBound};
ghost use Rattle.ta_moments.specs.Questions.{is_known_natural, known_value, next_question};
ghost use Rattle.ta_moments.specs.Vertices.{values_of as values_of_parts};
ghost use Rattle.ta_moment_tree.specs.Forms.{forms_of};
ghost use Rattle.ta_moment_tree.specs.Nodes.{IsAnyNode};
ghost use Rattle.ta_moment_tree.specs.Systems.{bound_forms, bounded_node};
ghost use Rattle.ta_walk.specs.Values.{values_of};
ghost use Rattle.ta_moment_tree.specs.Kept.{NodeIs};
ghost use Rattle.ta_moment_tree.specs.Makers.{may_take, scaled_in};
ghost use Rattle.ta_moment_tree.specs.Trees.{asking_of};
ghost use Rattle.ta_simplex.specs.Vertex.{parts_of};

use crate::bounds::bounds_met;
use crate::{Vertex, is_met, next_question, over_common_denominator};
use std::alloc::{AllocError, Global};
use ta_base::List;
use ta_encode::Bound;
use ta_linear::Row;
use ta_moment_tree::{MomentEncoding, MomentKept, MomentTree};
use ta_moments::Fact;
use ta_simplex::Fraction;

/// The rows of a node without bounds, with which the system that is kept begins.
pub(crate) fn own_rows<'k>(kept: &'k MomentKept<'_>, node: &MomentEncoding<'_>) -> &'k [Row]
    requires { IsBehind node.now.draft.rows.items kept.now.system.rows }
    ensures { result.now ≡ node.now.draft.rows.items }
{
    &kept.system.rows.as_slice()[..node.row_count()]
}

/// Whether rows are known at a vertex and met there.
fn rows_met(rows: &[Row], vertex: &Vertex) -> bool
    ensures { result ≡ list_all (λ f. is_known_natural (known_value (values_of (Some vertex.now)) f)) (forms_of rows.now) }
{
    for row in rows {
        if !is_met(&row.form, vertex) {
            return false;
        }
    }
    true
}

/// Whether rows and those of bounds are known at a vertex and met there.
fn all_met(
    alloc: Global,
    rows: &[Row],
    bounds: &[Bound],
    vertex: &Vertex,
) -> Result<bool, AllocError>
    ensures { IfOk result (λ met. met ≡ list_all (λ f. is_known_natural (known_value (values_of (Some vertex.now)) f)) (forms_of rows.now ++ bound_forms bounds.now)) }
{
    if rows_met(rows, vertex) {
        bounds_met(alloc, bounds, vertex)
    } else {
        Ok(false)
    }
}

/// Whether nothing is asked at a vertex of a node with these facts, the newest first.
fn is_settled(
    tree: MomentTree<'_>,
    past: &[Fact],
    node: &MomentEncoding<'_>,
    vertex: &Vertex,
) -> Result<bool, AllocError>
    requires node { IsAnyNode node.now }
    requires few { length node.now.draft.moments.items ≤ 2 ^ 32 }
    ensures { IfOk result (λ settled. (candidate : Option ℕ) (bounds : Items KnownBound) → NodeIs tree.entry.task.automaton.now tree.entry.task.pattern.now tree.entry.silent.now candidate past.now node.now
        → settled ≡ not (is_some (next_question tree.entry.task.automaton.now tree.entry.task.pattern.now (asking_of tree.entry) (bounded_node candidate past.now bounds) (values_of (Some vertex.now))))) }
{
    let parts = node.parts(tree.rest, tree.silent)?;
    Ok(next_question(past, &parts, Some(vertex)).is_none())
}

/// Whether the numbers of a vertex whose denominator is 1 may be taken at a node with these facts, the
/// newest first, these rows and bounds.
fn may_take(
    alloc: Global,
    tree: MomentTree<'_>,
    past: &[Fact],
    bounds: &[Bound],
    node: &MomentEncoding<'_>,
    rows: &[Row],
    vertex: &Vertex,
) -> Result<bool, AllocError>
    requires node { IsAnyNode node.now }
    requires few { length node.now.draft.moments.items ≤ 2 ^ 32 }
    requires rows { rows.now ≡ node.now.draft.rows.items }
    requires whole { vertex.now.denominator ≡ pos 1 }
    ensures { IfOk result (λ may. (candidate : Option ℕ) → NodeIs tree.entry.task.automaton.now tree.entry.task.pattern.now tree.entry.silent.now candidate past.now node.now
        → may ≡ may_take tree.entry.task.automaton.now tree.entry.task.pattern.now (asking_of tree.entry) (bounded_node candidate past.now bounds.now) vertex.now.numbers) }
{
    let met = all_met(alloc, rows, bounds, vertex)?;
    if met {
        is_settled(tree, past, node, vertex)
    } else {
        Ok(false)
    }
}

/// The numbers of a vertex, where they may be taken as whole values.
fn taken(
    alloc: Global,
    tree: MomentTree<'_>,
    past: &[Fact],
    bounds: &[Bound],
    node: &MomentEncoding<'_>,
    rows: &[Row],
    vertex: Vertex,
) -> Result<Option<List<i128>>, AllocError>
    requires node { IsAnyNode node.now }
    requires few { length node.now.draft.moments.items ≤ 2 ^ 32 }
    requires rows { rows.now ≡ node.now.draft.rows.items }
    ensures { IfOk result (λ numbers. (candidate : Option ℕ) → NodeIs tree.entry.task.automaton.now tree.entry.task.pattern.now tree.entry.silent.now candidate past.now node.now
        → numbers ≡ scaled_in tree.entry.task.automaton.now tree.entry.task.pattern.now (asking_of tree.entry) (bounded_node candidate past.now bounds.now) (values_of (Some vertex))) }
{
    let Vertex {
        denominator: _,
        numbers,
    } = vertex;
    let whole = Vertex {
        denominator: 1,
        numbers,
    };
    let may = may_take(alloc, tree, past, bounds, node, rows, &whole)?;
    if may {
        let Vertex {
            denominator: _,
            numbers,
        } = whole;
        Ok(Some(numbers))
    } else {
        Ok(None)
    }
}

/// The values of a vertex of a node with these facts, the newest first, these rows and bounds, times
/// their least common denominator; none where they may not be taken. Only want of memory is an error.
pub(crate) fn scaled_at(
    alloc: Global,
    tree: MomentTree<'_>,
    past: &[Fact],
    bounds: &[Bound],
    node: &MomentEncoding<'_>,
    rows: &[Row],
    values: &[Fraction],
) -> Result<Option<List<i128>>, AllocError>
    requires node { IsAnyNode node.now }
    requires few { length node.now.draft.moments.items ≤ 2 ^ 32 }
    requires rows { rows.now ≡ node.now.draft.rows.items }
    requires values { length values.now ≤ 2 ^ 32 }
    ensures { IfOk result (λ numbers. (candidate : Option ℕ) → NodeIs tree.entry.task.automaton.now tree.entry.task.pattern.now tree.entry.silent.now candidate past.now node.now
        → numbers ≡ scaled_in tree.entry.task.automaton.now tree.entry.task.pattern.now (asking_of tree.entry) (bounded_node candidate past.now bounds.now) (values_of_parts (parts_of values.now))) }
{
    match over_common_denominator(alloc, values)? {
        None => Ok(None),
        Some(vertex) => taken(alloc, tree, past, bounds, node, rows, vertex),
    }
}
