//! The value of a place, and of a form over places, at a moment's vector.
#![tactic(auto)]

ghost use Rattle.std.specs.Prelude.{ℕ, ◌^◌, ◌+◌, ◌*◌, ◌≡◌, ◌≤◌, IfOk, slice_get, unsigned_abs};
ghost use Rattle.ta_base.specs.declared.limits.TheConstants.{LARGEST_NUMBER};
ghost use Rattle.ta_automaton.specs.Places.{rule_change};
ghost use Rattle.ta_encode.specs.Lines.{SmallTerms};
ghost use Rattle.ta_moments.specs.Forms.{number_form, plus_form, terms_form, times_form};
ghost use Rattle.ta_moments.specs.Moments.{place_form, start_form};
ghost use Rattle.ta_moment_tree.specs.Forms.{SmallBy, SmallVector, form_of, vector_of};
ghost use Rattle.ta_moment_tree.specs.Plan.{IsPlan};

use crate::form::{plus, plus_times, times};
use crate::plan::Plan;
use crate::vector::of_rule;
use std::alloc::AllocError;
use ta_base::List;
use ta_encode::{change_of, place_coefficient};
use ta_linear::Form;

/// What stands at a place before any step.
fn start_form(plan: &Plan, place: u32) -> Result<Form, AllocError>
    requires { IsPlan plan.now }
    ensures { IfOk result (λ form. form_of form ≡ start_form plan.now.task.automaton.now plan.now.task.pattern.now place) }
{
    let automaton = plan.task.automaton;
    let mut terms = Vec::new(plan.alloc);
    for (unknown, meaning) in plan.starts.as_slice().iter().enumerate() {
        let coefficient = place_coefficient(automaton, *meaning, place);
        if coefficient != 0 {
            terms.push((unknown as u32, coefficient))?;
        }
    }
    Ok(Form {
        constant: 0,
        terms: List::from_vec(terms),
    })
}

/// A form, and what the firings of a rule change at a place.
fn with_change(
    plan: &Plan,
    vector: &[Form],
    rule: u32,
    place: u32,
    form: Form,
) -> Result<Form, AllocError>
    requires vector { SmallVector 3 (vector_of vector.now) }
    requires form { SmallBy (2 ^ 100) (form_of form) }
    ensures value { IfOk result (λ more. form_of more ≡ plus_form (form_of form) (times_form (rule_change plan.now.task.automaton.now (slice_get plan.now.task.automaton.now.rules rule) place) (vector_of vector.now rule))) }
    ensures small { IfOk result (λ more. (n : ℕ) → SmallBy n (form_of form) → SmallBy (n + 51000000000) (form_of more)) }
{
    let change = change_of(plan.task.automaton, rule, place);
    if change == 0 {
        return Ok(form);
    }
    let zero = Form::constant_of(plan.alloc, 0);
    let sum = plus_times(plan.alloc, form, change, of_rule(vector, &zero, rule))?;
    Ok(sum)
}

/// What stands at a place at a vector.
pub(crate) fn place_form(plan: &Plan, vector: &[Form], place: u32) -> Result<Form, AllocError>
    requires plan { IsPlan plan.now }
    requires vector { SmallVector 3 (vector_of vector.now) }
    ensures value { IfOk result (λ form. form_of form ≡ place_form plan.now.task.automaton.now plan.now.task.pattern.now (vector_of vector.now) place) }
    ensures small { IfOk result (λ form. SmallBy (17000000000 * 3100) (form_of form)) }
{
    let mut total = start_form(plan, place)?;
    for rule in plan.moving.as_slice() {
        total = with_change(plan, vector, *rule, place, total)?;
    }
    Ok(total)
}

/// The product of a coefficient and what stands at a place at a vector.
fn product_at(
    plan: &Plan,
    vector: &[Form],
    place: u32,
    coefficient: i128,
) -> Result<Form, AllocError>
    requires plan { IsPlan plan.now }
    requires vector { SmallVector 3 (vector_of vector.now) }
    requires coefficient { unsigned_abs coefficient ≤ LARGEST_NUMBER }
    ensures value { IfOk result (λ form. form_of form ≡ times_form coefficient (place_form plan.now.task.automaton.now plan.now.task.pattern.now (vector_of vector.now) place)) }
    ensures small { IfOk result (λ form. SmallBy (17000000000 * 3100 * LARGEST_NUMBER) (form_of form)) }
{
    let value = place_form(plan, vector, place)?;
    let product = times(plan.alloc, coefficient, &value)?;
    Ok(product)
}

/// A form over places, given by its constant and its terms, at a vector.
pub(crate) fn form_at(
    plan: &Plan,
    vector: &[Form],
    constant: i128,
    terms: &[(u32, i128)],
) -> Result<Form, AllocError>
    requires plan { IsPlan plan.now }
    requires vector { SmallVector 3 (vector_of vector.now) }
    requires constant { unsigned_abs constant ≤ LARGEST_NUMBER }
    requires terms { SmallTerms terms.now }
    ensures value { IfOk result (λ form. form_of form ≡ plus_form (number_form constant) (terms_form (place_form plan.now.task.automaton.now plan.now.task.pattern.now (vector_of vector.now)) terms.now)) }
    ensures small { IfOk result (λ form. SmallBy (17000000000 * 3100 * LARGEST_NUMBER * 225) (form_of form)) }
{
    let mut total = Form::constant_of(plan.alloc, constant);
    for (place, coefficient) in terms {
        let product = product_at(plan, vector, *place, *coefficient)?;
        total = plus(plan.alloc, &total, &product)?;
    }
    Ok(total)
}
