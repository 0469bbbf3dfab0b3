//! Whether moments are settled at a vertex.
#![tactic(auto)]

ghost use Rattle.std.specs.Prelude.{◌≡◌, ◌<◌, ◌≤◌, ◌^◌, length, option_copied};
ghost use Rattle.ta_moments.specs.Questions.{is_at_most, is_same_step, is_settled, is_order_open, order_before, order_to_ask};
ghost use Rattle.ta_moment_tree.specs.Forms.{vector_of};
ghost use Rattle.ta_walk.specs.Values.{values_of};
ghost use Rattle.ta_moment_tree.specs.Moments.{moment_of, moments_of};

use crate::known::{is_at_least, of_rule};
use crate::moment_vertex::Vertex;
use ta_linear::Form;
use ta_moment_tree::Moment;
use ta_moments::{Fact, Question, is_open};

/// Whether no moving rule has fewer firings in the second vector, as far as that is known.
fn is_at_most(moving: &[u32], one: &[Form], other: &[Form], vertex: Option<&Vertex>) -> bool
    ensures { result ≡ is_at_most moving.now (values_of (option_copied vertex.entry)) (vector_of one.now) (vector_of other.now) }
{
    for rule in moving {
        if !is_at_least(of_rule(other, *rule), of_rule(one, *rule), vertex) {
            return false;
        }
    }
    true
}

/// Whether two moments are the same step.
fn is_same_step(moving: &[u32], x: &Moment, y: &Moment, vertex: Option<&Vertex>) -> bool
    ensures { result ≡ is_same_step moving.now (values_of (option_copied vertex.entry)) (moment_of x.now) (moment_of y.now) }
{
    match (x, y) {
        (Moment::Pair(v, w), Moment::Pair(before, after)) => {
            is_at_most(moving, v.as_slice(), before.as_slice(), vertex)
                && is_at_most(moving, before.as_slice(), v.as_slice(), vertex)
                && is_at_most(moving, w.as_slice(), after.as_slice(), vertex)
                && is_at_most(moving, after.as_slice(), w.as_slice(), vertex)
        }
        _ => false,
    }
}

/// Whether one of two moments isn't after the other, or both are the same step.
fn is_settled(moving: &[u32], x: &Moment, y: &Moment, vertex: Option<&Vertex>) -> bool
    ensures { result ≡ is_settled moving.now (values_of (option_copied vertex.entry)) (moment_of x.now) (moment_of y.now) }
{
    is_at_most(moving, x.late(), y.early(), vertex)
        || is_at_most(moving, y.late(), x.early(), vertex)
        || is_same_step(moving, x, y, vertex)
}

/// Whether the order of two moments, by their numbers, isn't asked and isn't settled.
fn is_order_open(
    moving: &[u32],
    facts: &[Fact],
    vertex: Option<&Vertex>,
    moments: &[Moment],
    y: usize,
    x: usize,
) -> bool
    requires within { (x < length moments.now) × (y < length moments.now) }
    requires few { length moments.now ≤ 2 ^ 32 }
    ensures { result ≡ is_order_open moving.now facts.now (values_of (option_copied vertex.entry)) (moments_of moments.now) y x }
{
    is_open(facts, Question::OfOrder(x as u32, y as u32))
        && !is_settled(moving, &moments[x], &moments[y], vertex)
}

/// The first open order of a moment and one before it.
fn order_before(
    moving: &[u32],
    facts: &[Fact],
    vertex: Option<&Vertex>,
    moments: &[Moment],
    y: usize,
) -> Option<Question>
    requires within { y < length moments.now }
    requires few { length moments.now ≤ 2 ^ 32 }
    ensures { result ≡ order_before moving.now facts.now (values_of (option_copied vertex.entry)) (moments_of moments.now) y }
{
    for x in 0..y {
        if is_order_open(moving, facts, vertex, moments, y, x) {
            return Some(Question::OfOrder(x as u32, y as u32));
        }
    }
    None
}

/// The first open order.
pub(crate) fn order_to_ask(
    moving: &[u32],
    facts: &[Fact],
    moments: &[Moment],
    vertex: Option<&Vertex>,
) -> Option<Question>
    requires { length moments.now ≤ 2 ^ 32 }
    ensures { result ≡ order_to_ask moving.now facts.now (values_of (option_copied vertex.entry)) (moments_of moments.now) }
{
    for y in 0..moments.len() {
        let found = order_before(moving, facts, vertex, moments, y);
        if found.is_some() {
            return found;
        }
    }
    None
}
