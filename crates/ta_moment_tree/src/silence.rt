//! Rows of guards without the terms of silent places, and of vacant locations.
#![tactic(auto)]

ghost use Rattle.std.specs.Prelude.{◌^◌, ◌≡◌, ◌∷◌, [], OnOk, IfOk, Some, map, slice_get};
ghost use Rattle.ta_encode.specs.Lines.{SmallTerms};
ghost use Rattle.ta_moments.specs.Forms.{negated_form, opposite_form};
ghost use Rattle.ta_moments.specs.Moments.{guards, quiet_at, source_at};
ghost use Rattle.ta_rest.specs.Quiet.{is_silent, loud_terms};
ghost use Rattle.ta_moment_tree.specs.Forms.{SmallBy, SmallVector, form_of, vector_of};
ghost use Rattle.ta_moment_tree.specs.Plan.{IsPlan};
ghost use Rattle.ta_moment_tree.specs.Rows.{AddsForms};

use crate::at::{form_at, place_form};
use crate::form::{negated, opposite};
use crate::plan::{Plan, guard_row};
use crate::rows::push_form;
use std::alloc::{AllocError, Global};
use ta_encode::first_location;
use ta_linear::{Form, Row};

/// Whether a place is silent.
fn is_silent(silent: &[u32], place: u32) -> bool
    ensures { result ≡ is_silent silent.now place }
{
    for quiet in silent {
        if *quiet == place {
            return true;
        }
    }
    false
}

/// The terms that aren't of silent places.
fn loud_terms(
    alloc: Global,
    silent: &[u32],
    terms: &[(u32, i128)],
) -> Result<Vec<(u32, i128)>, AllocError>
    requires { SmallTerms terms.now }
    ensures { IfOk result (λ loud. loud.items ≡ loud_terms silent.now terms.now) }
{
    let mut loud = Vec::new(alloc);
    for (place, coefficient) in terms {
        if !is_silent(silent, *place) {
            loud.push((*place, *coefficient))?;
        }
    }
    Ok(loud)
}

/// The row of a guard, by its number, at a vector, without the terms of silent places.
pub(crate) fn quiet_form(
    plan: &Plan,
    silent: &[u32],
    vector: &[Form],
    guard: u32,
    row: &Row,
) -> Result<Form, AllocError>
    requires plan { IsPlan plan.now }
    requires vector { SmallVector 3 (vector_of vector.now) }
    requires row { slice_get (guards plan.now.task.automaton.now) guard ≡ Some row.now }
    ensures value { IfOk result (λ form. form_of form ∷ [] ≡ quiet_at plan.now.task.automaton.now plan.now.task.pattern.now silent.now (vector_of vector.now) (Some row.now)) }
    ensures small { IfOk result (λ form. SmallBy (2 ^ 119) (form_of form)) }
{
    let _guard = guard;
    let loud = loud_terms(plan.alloc, silent, row.form.terms.as_slice())?;
    let form = form_at(plan, vector, row.form.constant, loud.as_slice())?;
    Ok(form)
}

/// The negated row of a guard at a vector, without the terms of silent places.
pub(crate) fn push_failing(
    plan: &Plan,
    silent: &[u32],
    vector: &[Form],
    guard: u32,
    rows: &mut Vec<Row>,
) -> Result<(), AllocError>
    requires plan { IsPlan plan.now }
    requires vector { SmallVector 3 (vector_of vector.now) }
    ensures { OnOk result (AddsForms (map negated_form (quiet_at plan.now.task.automaton.now plan.now.task.pattern.now silent.now (vector_of vector.now) (slice_get (guards plan.now.task.automaton.now) guard))) rows.old.items rows.new.items) }
{
    match guard_row(plan.task.automaton, guard) {
        None => Ok(()),
        Some(row) => {
            let form = quiet_form(plan, silent, vector, guard, row)?;
            let turned = negated(plan.alloc, &form)?;
            push_form(turned, rows)?;
            Ok(())
        }
    }
}

/// That nobody is at a rule's source at a vector.
pub(crate) fn push_vacant(
    plan: &Plan,
    vector: &[Form],
    rule: u32,
    rows: &mut Vec<Row>,
) -> Result<(), AllocError>
    requires plan { IsPlan plan.now }
    requires vector { SmallVector 3 (vector_of vector.now) }
    ensures { OnOk result (AddsForms (map opposite_form (source_at plan.now.task.automaton.now plan.now.task.pattern.now (vector_of vector.now) (slice_get plan.now.task.automaton.now.rules rule))) rows.old.items rows.new.items) }
{
    let automaton = plan.task.automaton;
    match automaton.rules.as_slice().get(rule as usize) {
        None => Ok(()),
        Some(rule) => {
            let place = first_location(automaton) + rule.from;
            let counter = place_form(plan, vector, place)?;
            let turned = opposite(plan.alloc, &counter)?;
            push_form(turned, rows)?;
            Ok(())
        }
    }
}
