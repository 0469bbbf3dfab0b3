//! What is asked at a vertex.
#![tactic(auto)]

ghost use Rattle.std.specs.Prelude.{ℕ, ◌≡◌, ◌≤◌, ◌^◌, IfOk, List as Items, Option, length};
ghost use Rattle.ta_encode.specs.declared.meaning.Bound.{Bound};
ghost use Rattle.ta_moments.specs.declared.fact.Fact.{Fact as KnownFact};
ghost use Rattle.ta_moments.specs.Questions.{next_question};
ghost use Rattle.ta_moments.specs.Refutes.{Asking};
ghost use Rattle.ta_moments.specs.Vertices.{values_of as values_of_parts};
ghost use Rattle.ta_moment_tree.specs.Nodes.{IsAnyNode, IsNode};
ghost use Rattle.ta_moment_tree.specs.Systems.{bounded_node};
ghost use Rattle.ta_simplex.specs.Vertex.{parts_of};

use crate::moment_vertices::over_common_denominator;
use crate::next_question;
use std::alloc::{AllocError, Global};
use ta_moment_tree::MomentEncoding;
use ta_moments::{Fact, Question};
use ta_simplex::Fraction;

/// The question that is asked at a vertex of a node with these facts, the newest first, where it is
/// asked of rest or not, with these silent places. Only want of memory is an error.
pub fn vertex_question(
    alloc: Global,
    encoding: &MomentEncoding<'_>,
    facts: &[Fact],
    rest: bool,
    silent: &[u32],
    values: &[Fraction],
) -> Result<Option<Question>, AllocError>
    requires node { IsAnyNode encoding.now }
    requires few { length encoding.now.draft.moments.items ≤ 2 ^ 32 }
    requires values { length values.now ≤ 2 ^ 32 }
    ensures { IfOk result (λ question. (asking : Asking) (candidate : Option ℕ) (bounds : Items Bound) → asking.rest ≡ rest → asking.silent ≡ silent.now → IsNode asking.silent candidate facts.now encoding.now
        → question ≡ next_question encoding.now.plan.task.automaton.now encoding.now.plan.task.pattern.now asking (bounded_node candidate facts.now bounds) (values_of_parts (parts_of values.now))) }
{
    let parts = encoding.parts(rest, silent)?;
    let vertex = over_common_denominator(alloc, values)?;
    Ok(next_question(facts, &parts, vertex.as_ref()))
}
