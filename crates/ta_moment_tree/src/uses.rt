//! The unknowns and rows of the first use of a rise guard, and of the last use of a fall guard.
//!
//! Before the first use no rule has fired that needs the guard, so these rules have 0 in its
//! vector, and the other moving rules an unknown each. The guard holds there, and the vector is
//! below the end.
//!
//! The last use is one step. Its unknowns say which rule steps, with sum 1, and how often each rule
//! fired before that spares the guard; a rule that needs it has fired as often as up to the end,
//! but for this step. The guard holds before the step and fails at the end.
#![tactic(auto)]

ghost use Rattle.std.specs.Prelude.{ℕ, pos, ◌+◌, ◌<◌, ◌≤◌, ◌^◌, ◌≡◌, ◌∷◌, ◌++◌, [], IfOk, OnOk, length, slice_get};
ghost use Rattle.ta_moments.specs.Facts.{needing, sparing};
ghost use Rattle.ta_moments.specs.Forms.{minus_form, number_form, opposite_form, sum_form};
ghost use Rattle.ta_moments.specs.Laws.{Speaks};
ghost use Rattle.ta_moments.specs.Moments.{Pair as KnownPair, Point as KnownPoint, after_vector, before_vector, below, counters_at, first_vector, guard_at, guards, rows_of_first, rows_of_last, step_vector};
ghost use Rattle.ta_moment_tree.specs.Forms.{SmallBy, SmallVector, form_of, vector_of};
ghost use Rattle.ta_moment_tree.specs.Moments.{moment_of};
ghost use Rattle.ta_moment_tree.specs.Plan.{IsPlan};
ghost use Rattle.ta_moment_tree.specs.Rows.{AddsForms, last_rows};

use crate::form::{minus, opposite};
use crate::moment::Moment;
use crate::plan::Plan;
use crate::rows::{push_below, push_counters, push_each, push_form, push_guard};
use crate::silence::push_failing;
use crate::vector::{fresh, plus_at, sums};
use std::alloc::AllocError;
use ta_linear::{Form, Row};

/// A moment of a fact, and how many unknowns stand for it.
#[derive(Drop)]
pub(crate) struct Use {
    pub(crate) unknowns: usize,
    pub(crate) moment: Moment,
}

/// The vectors before and after a step, and that of the step.
#[derive(Drop)]
struct Step {
    before: Vec<Form>,
    step: Vec<Form>,
    after: Vec<Form>,
}

/// The rows of a first use, from its vector.
fn push_first_rows(
    plan: &Plan,
    end: &[Form],
    vector: &[Form],
    guard: u32,
    rows: &mut Vec<Row>,
) -> Result<(), AllocError>
    requires plan { IsPlan plan.now }
    requires end { SmallVector 1 (vector_of end.now) }
    requires vector { SmallVector 1 (vector_of vector.now) }
    ensures { (n : ℕ) → ((r : ℕ) → Speaks n (vector_of vector.now r)) → ((r : ℕ) → Speaks n (vector_of end.now r)) → OnOk result (AddsForms (counters_at plan.now.task.automaton.now plan.now.task.pattern.now (vector_of vector.now)
        ++ (guard_at plan.now.task.automaton.now plan.now.task.pattern.now (vector_of vector.now) (slice_get (guards plan.now.task.automaton.now) guard)
        ++ below plan.now.task.automaton.now plan.now.task.pattern.now n (vector_of vector.now) (vector_of end.now))) rows.old.items rows.new.items) }
{
    push_counters(plan, vector, rows)?;
    push_guard(plan, vector, guard, rows)?;
    push_below(plan, vector, end, rows)?;
    Ok(())
}

/// The first use of a guard: its moment and its rows.
pub(crate) fn push_first_use(
    plan: &Plan,
    end: &[Form],
    unknowns: usize,
    guard: u32,
    rows: &mut Vec<Row>,
) -> Result<Use, AllocError>
    requires plan { IsPlan plan.now }
    requires few { unknowns < 2 ^ 31 }
    requires end { SmallVector 1 (vector_of end.now) }
    requires speaks { (r : ℕ) → Speaks unknowns (vector_of end.now r) }
    ensures unknowns { IfOk result (λ used. used.unknowns ≡ length (sparing plan.now.task.automaton.now plan.now.task.pattern.now guard)) }
    ensures moment { IfOk result (λ used. moment_of used.moment ≡ KnownPoint (first_vector plan.now.task.automaton.now plan.now.task.pattern.now unknowns guard)) }
    ensures rows { OnOk result (AddsForms (rows_of_first plan.now.task.automaton.now plan.now.task.pattern.now (vector_of end.now) unknowns guard) rows.old.items rows.new.items) }
{
    let count = plan.task.automaton.rules.as_slice().len();
    let others = plan.sparing(guard)?;
    let rules = others.as_slice();
    let vector = fresh(plan.alloc, count, unknowns as u32, rules, &[], &[])?;
    push_first_rows(plan, end, vector.as_slice(), guard, rows)?;
    Ok(Use {
        unknowns: rules.len(),
        moment: Moment::Point(vector),
    })
}

/// The sum of the forms of some rules, less 1.
fn less_one(plan: &Plan, step: &[Form], rules: &[u32]) -> Result<Form, AllocError>
    requires step { SmallVector 1 (vector_of step.now) }
    requires few { length rules.now ≤ 1024 }
    ensures value { IfOk result (λ form. form_of form ≡ minus_form (sum_form (vector_of step.now) rules.now) (number_form (pos 1))) }
    ensures small { IfOk result (λ form. SmallBy 1025 (form_of form)) }
{
    let one = Form::constant_of(plan.alloc, 1);
    let mut total = Form::constant_of(plan.alloc, 0);
    for rule in rules {
        total = plus_at(plan.alloc, &total, step, *rule)?;
    }
    let less = minus(plan.alloc, &total, &one)?;
    Ok(less)
}

/// One step: the sum of the forms of some rules is 1.
fn push_one_step(
    plan: &Plan,
    step: &[Form],
    rules: &[u32],
    rows: &mut Vec<Row>,
) -> Result<(), AllocError>
    requires step { SmallVector 1 (vector_of step.now) }
    requires few { length rules.now ≤ 1024 }
    ensures { OnOk result (AddsForms (minus_form (sum_form (vector_of step.now) rules.now) (number_form (pos 1)) ∷ opposite_form (minus_form (sum_form (vector_of step.now) rules.now) (number_form (pos 1))) ∷ []) rows.old.items rows.new.items) }
{
    let steps = less_one(plan, step, rules)?;
    let turned = opposite(plan.alloc, &steps)?;
    push_form(steps, rows)?;
    push_form(turned, rows)?;
    Ok(())
}

/// The rows of a last use, from its vectors.
fn push_last_rows(
    plan: &Plan,
    end: &[Form],
    vectors: &Step,
    guard: u32,
    rules: &[u32],
    rows: &mut Vec<Row>,
) -> Result<(), AllocError>
    requires plan { IsPlan plan.now }
    requires end { SmallVector 1 (vector_of end.now) }
    requires before { SmallVector 2 (vector_of vectors.now.before.items) }
    requires step { SmallVector 1 (vector_of vectors.now.step.items) }
    requires after { SmallVector 3 (vector_of vectors.now.after.items) }
    requires few { length rules.now ≤ 1024 }
    ensures { (n : ℕ) → ((r : ℕ) → Speaks n (vector_of vectors.now.after.items r)) → ((r : ℕ) → Speaks n (vector_of end.now r)) → OnOk result (AddsForms (
        last_rows plan.now.task.automaton.now plan.now.task.pattern.now n (vector_of end.now) (vector_of vectors.now.before.items) (vector_of vectors.now.step.items) (vector_of vectors.now.after.items) guard rules.now) rows.old.items rows.new.items) }
{
    let before = vectors.before.as_slice();
    let step = vectors.step.as_slice();
    let after = vectors.after.as_slice();
    push_counters(plan, before, rows)?;
    push_each(plan, before, rules, rows)?;
    push_guard(plan, before, guard, rows)?;
    push_one_step(plan, step, rules, rows)?;
    push_counters(plan, after, rows)?;
    push_below(plan, after, end, rows)?;
    push_failing(plan, &[], end, guard, rows)?;
    Ok(())
}

/// The vectors of the last step of a rule that needs a guard, where the others spare it.
fn step_vectors(
    plan: &Plan,
    end: &[Form],
    unknowns: usize,
    guard: u32,
    others: &[u32],
    chosen: &[u32],
) -> Result<Step, AllocError>
    requires few { unknowns < 2 ^ 31 }
    requires others { others.now ≡ sparing plan.now.task.automaton.now plan.now.task.pattern.now guard }
    requires chosen { chosen.now ≡ needing plan.now.task.automaton.now plan.now.task.pattern.now guard }
    requires length { length end.now ≤ length plan.now.task.automaton.now.rules }
    requires end { SmallVector 1 (vector_of end.now) }
    ensures step { IfOk result (λ vectors. vector_of vectors.step.items ≡ step_vector plan.now.task.automaton.now plan.now.task.pattern.now unknowns guard) }
    ensures before { IfOk result (λ vectors. vector_of vectors.before.items ≡ before_vector plan.now.task.automaton.now plan.now.task.pattern.now (vector_of end.now) unknowns guard) }
    ensures after { IfOk result (λ vectors. vector_of vectors.after.items ≡ after_vector plan.now.task.automaton.now plan.now.task.pattern.now (vector_of end.now) unknowns guard) }
{
    let rules = plan.task.automaton.rules.as_slice().len();
    let first = unknowns as u32;
    let next = first + others.len() as u32;
    let step = fresh(plan.alloc, rules, next, chosen, &[], &[])?;
    let stepped = step.as_slice();
    let before = fresh(plan.alloc, rules, first, others, end, stepped)?;
    let started = before.as_slice();
    let after = sums(plan.alloc, started, stepped)?;
    Ok(Step {
        before,
        step,
        after,
    })
}

/// The last use of a guard: its moment and its rows.
pub(crate) fn push_last_use(
    plan: &Plan,
    end: &[Form],
    unknowns: usize,
    guard: u32,
    rows: &mut Vec<Row>,
) -> Result<Use, AllocError>
    requires plan { IsPlan plan.now }
    requires few { unknowns < 2 ^ 31 }
    requires length { length end.now ≤ length plan.now.task.automaton.now.rules }
    requires end { SmallVector 1 (vector_of end.now) }
    requires speaks { (r : ℕ) → Speaks unknowns (vector_of end.now r) }
    ensures unknowns { IfOk result (λ used. used.unknowns ≡ length (sparing plan.now.task.automaton.now plan.now.task.pattern.now guard) + length (needing plan.now.task.automaton.now plan.now.task.pattern.now guard)) }
    ensures moment { IfOk result (λ used. moment_of used.moment ≡ KnownPair (before_vector plan.now.task.automaton.now plan.now.task.pattern.now (vector_of end.now) unknowns guard) (after_vector plan.now.task.automaton.now plan.now.task.pattern.now (vector_of end.now) unknowns guard)) }
    ensures rows { OnOk result (AddsForms (rows_of_last plan.now.task.automaton.now plan.now.task.pattern.now (vector_of end.now) unknowns guard) rows.old.items rows.new.items) }
{
    let spared = plan.sparing(guard)?;
    let needed = plan.needing(guard)?;
    let others = spared.as_slice();
    let chosen = needed.as_slice();
    let vectors = step_vectors(plan, end, unknowns, guard, others, chosen)?;
    push_last_rows(plan, end, &vectors, guard, chosen, rows)?;
    let unknowns = others.len() + chosen.len();
    let Step {
        before,
        step: _,
        after,
    } = vectors;
    Ok(Use {
        unknowns,
        moment: Moment::Pair(before, after),
    })
}
