//! Rows at a vector.
#![tactic(auto)]

ghost use Rattle.std.specs.Prelude.{ℕ, ◌+◌, ◌≡◌, ◌++◌, ◌∷◌, [], OnOk, map, slice_get};
ghost use Rattle.std.specs.List.{AllByRecursion};
ghost use Rattle.ta_encode.specs.Inside.Lines.{SmallCondition, SmallEvents, SmallForm, SmallRows};
ghost use Rattle.ta_moments.specs.Forms.{negated_form, number_form, opposite_form};
ghost use Rattle.ta_moments.specs.Laws.{Speaks};
ghost use Rattle.ta_moments.specs.Moments.{below, condition_at, counters_at, event_at, form_at, guard_at, guards, quiet_at, source_at};
ghost use Rattle.ta_linear.specs.declared.row.Row.{Row};
ghost use Rattle.ta_moment_tree.specs.Forms.{SmallVector, form_of, vector_of};
ghost use Rattle.ta_moment_tree.specs.Plan.{IsPlan};
ghost use Rattle.ta_moment_tree.specs.Rows.{AddsForms};

use crate::at::{form_at, place_form};
use crate::form::may_be_negative;
use crate::plan::{Plan, guard_row};
use crate::vector::{copy_at, difference_at, opposite_at};
use std::alloc::AllocError;
use ta_automaton::Condition;
use ta_base::masks::contains;
use ta_encode::first_location;
use ta_linear::{Form, Row};

/// The row of a form.
pub(crate) fn push_form(form: Form, rows: &mut Vec<Row>) -> Result<(), AllocError>
    ensures { OnOk result (AddsForms (form_of form ∷ []) rows.old.items rows.new.items) }
{
    rows.push(Row { form })?;
    Ok(())
}

/// The counters at a vector of the locations that aren't kept empty, in order.
pub(crate) fn push_counters(
    plan: &Plan,
    vector: &[Form],
    rows: &mut Vec<Row>,
) -> Result<(), AllocError>
    requires plan { IsPlan plan.now }
    requires vector { SmallVector 3 (vector_of vector.now) }
    ensures { OnOk result (AddsForms (counters_at plan.now.task.automaton.now plan.now.task.pattern.now (vector_of vector.now)) rows.old.items rows.new.items) }
{
    let automaton = plan.task.automaton;
    let first = first_location(automaton);
    for location in 0..automaton.locations.as_slice().len() {
        if !contains(plan.task.pattern.empty, location as u32) {
            let counter = place_form(plan, vector, first + location as u32)?;
            push_form(counter, rows)?;
        }
    }
    Ok(())
}

/// The row of a form over places at a vector.
fn push_form_at(
    plan: &Plan,
    vector: &[Form],
    form: &Form,
    rows: &mut Vec<Row>,
) -> Result<(), AllocError>
    requires plan { IsPlan plan.now }
    requires vector { SmallVector 3 (vector_of vector.now) }
    requires form { SmallForm form.now }
    ensures { OnOk result (AddsForms (form_at plan.now.task.automaton.now plan.now.task.pattern.now (vector_of vector.now) form.now ∷ []) rows.old.items rows.new.items) }
{
    let written = form_at(plan, vector, form.constant, form.terms.as_slice())?;
    push_form(written, rows)?;
    Ok(())
}

/// The rows of some rows over places at a vector.
fn push_rows(
    plan: &Plan,
    vector: &[Form],
    some: &[Row],
    rows: &mut Vec<Row>,
) -> Result<(), AllocError>
    requires plan { IsPlan plan.now }
    requires vector { SmallVector 3 (vector_of vector.now) }
    requires small { SmallRows some.now }
    ensures { OnOk result (AddsForms (map (λ (r : Row). form_at plan.now.task.automaton.now plan.now.task.pattern.now (vector_of vector.now) r.form) some.now) rows.old.items rows.new.items) }
{
    for row in some {
        push_form_at(plan, vector, &row.form, rows)?;
    }
    Ok(())
}

/// The rows of a condition at a vector.
fn push_condition(
    plan: &Plan,
    vector: &[Form],
    condition: &Condition,
    rows: &mut Vec<Row>,
) -> Result<(), AllocError>
    requires plan { IsPlan plan.now }
    requires vector { SmallVector 3 (vector_of vector.now) }
    requires small { SmallCondition condition.now }
    ensures { OnOk result (AddsForms (condition_at plan.now.task.automaton.now plan.now.task.pattern.now (vector_of vector.now) condition.now.comparisons) rows.old.items rows.new.items) }
{
    for comparison in condition.comparisons.as_slice() {
        push_rows(plan, vector, comparison.rows.as_slice(), rows)?;
    }
    Ok(())
}

/// The rows of an event's condition at a vector.
pub(crate) fn push_event(
    plan: &Plan,
    vector: &[Form],
    event: usize,
    rows: &mut Vec<Row>,
) -> Result<(), AllocError>
    requires plan { IsPlan plan.now }
    requires vector { SmallVector 3 (vector_of vector.now) }
    ensures { OnOk result (AddsForms (event_at plan.now.task.automaton.now plan.now.task.pattern.now (vector_of vector.now) (slice_get plan.now.task.pattern.now.events event)) rows.old.items rows.new.items) }
{
    match plan.task.pattern.events.as_slice().get(event) {
        None => Ok(()),
        Some(event) => {
            push_condition(plan, vector, &event.condition, rows)?;
            Ok(())
        }
    }
}

/// The row of a guard at a vector.
pub(crate) fn push_guard(
    plan: &Plan,
    vector: &[Form],
    guard: u32,
    rows: &mut Vec<Row>,
) -> Result<(), AllocError>
    requires plan { IsPlan plan.now }
    requires vector { SmallVector 3 (vector_of vector.now) }
    ensures { OnOk result (AddsForms (guard_at plan.now.task.automaton.now plan.now.task.pattern.now (vector_of vector.now) (slice_get (guards plan.now.task.automaton.now) guard)) rows.old.items rows.new.items) }
{
    match guard_row(plan.task.automaton, guard) {
        None => Ok(()),
        Some(row) => {
            push_form_at(plan, vector, &row.form, rows)?;
            Ok(())
        }
    }
}

/// The rows of the differences of two vectors that may be negative: the one is below the other.
pub(crate) fn push_below(
    plan: &Plan,
    beneath: &[Form],
    above: &[Form],
    rows: &mut Vec<Row>,
) -> Result<(), AllocError>
    requires plan { IsPlan plan.now }
    requires beneath { SmallVector 3 (vector_of beneath.now) }
    requires above { SmallVector 3 (vector_of above.now) }
    ensures { (n : ℕ) → ((r : ℕ) → Speaks n (vector_of beneath.now r)) → ((r : ℕ) → Speaks n (vector_of above.now r)) → OnOk result (AddsForms (below plan.now.task.automaton.now plan.now.task.pattern.now n (vector_of beneath.now) (vector_of above.now)) rows.old.items rows.new.items) }
{
    for rule in plan.moving.as_slice() {
        let form = difference_at(plan.alloc, above, beneath, *rule)?;
        if may_be_negative(&form) {
            push_form(form, rows)?;
        }
    }
    Ok(())
}

/// The negatives of the forms of some rules.
pub(crate) fn push_opposites(
    plan: &Plan,
    vector: &[Form],
    rules: &[u32],
    rows: &mut Vec<Row>,
) -> Result<(), AllocError>
    requires vector { SmallVector 3 (vector_of vector.now) }
    ensures { OnOk result (AddsForms (map (λ r. opposite_form (vector_of vector.now r)) rules.now) rows.old.items rows.new.items) }
{
    for rule in rules {
        let form = opposite_at(plan.alloc, vector, *rule)?;
        push_form(form, rows)?;
    }
    Ok(())
}

/// The forms of some rules.
pub(crate) fn push_each(
    plan: &Plan,
    vector: &[Form],
    rules: &[u32],
    rows: &mut Vec<Row>,
) -> Result<(), AllocError>
    ensures { OnOk result (AddsForms (map (vector_of vector.now) rules.now) rows.old.items rows.new.items) }
{
    for rule in rules {
        let form = copy_at(plan.alloc, vector, *rule)?;
        push_form(form, rows)?;
    }
    Ok(())
}
