//! Vectors: a form for each rule.
#![tactic(auto)]

ghost use Rattle.std.specs.Prelude.{ℕ, pos, ◌+◌, ◌≡◌, ◌≤◌, ◌<◌, ◌^◌, IfOk, IfNone, IfSome, length};
ghost use Rattle.std.specs.List.{AllByRecursion};
ghost use Rattle.ta_moments.specs.Forms.{minus_form, number_form, opposite_form, plus_form, unknown_form};
ghost use Rattle.ta_moments.specs.Moments.{Vector, fresh};
ghost use Rattle.ta_moment_tree.specs.Forms.{SmallBy, SmallVector, form_of, vector_of};

use crate::form::{copy, minus, opposite, plus, unknown};
use std::alloc::{AllocError, Global};
use ta_linear::Form;

/// The form of a rule in a vector.
pub(crate) fn of_rule<'v>(vector: &'v [Form], zero: &'v Form, rule: u32) -> &'v Form
    requires { form_of zero.now ≡ number_form (pos 0) }
    ensures { form_of result.now ≡ vector_of vector.now rule }
{
    match vector.get(rule as usize) {
        None => zero,
        Some(form) => form,
    }
}

/// The form of a rule in a vector, once more.
pub(crate) fn copy_at(alloc: Global, vector: &[Form], rule: u32) -> Result<Form, AllocError>
    ensures { IfOk result (λ form. form_of form ≡ vector_of vector.now rule) }
{
    let zero = Form::constant_of(alloc, 0);
    let form = copy(alloc, of_rule(vector, &zero, rule))?;
    Ok(form)
}

/// The negative of the form of a rule in a vector.
pub(crate) fn opposite_at(alloc: Global, vector: &[Form], rule: u32) -> Result<Form, AllocError>
    requires { SmallVector 3 (vector_of vector.now) }
    ensures { IfOk result (λ form. form_of form ≡ opposite_form (vector_of vector.now rule)) }
{
    let zero = Form::constant_of(alloc, 0);
    let form = opposite(alloc, of_rule(vector, &zero, rule))?;
    Ok(form)
}

/// The sum of a small form and the form of a rule in a vector.
pub(crate) fn plus_at(
    alloc: Global,
    x: &Form,
    vector: &[Form],
    rule: u32,
) -> Result<Form, AllocError>
    requires form { SmallBy (2 ^ 120) (form_of x.now) }
    requires vector { SmallVector 3 (vector_of vector.now) }
    ensures { IfOk result (λ sum. form_of sum ≡ plus_form (form_of x.now) (vector_of vector.now rule)) }
{
    let zero = Form::constant_of(alloc, 0);
    let sum = plus(alloc, x, of_rule(vector, &zero, rule))?;
    Ok(sum)
}

/// The sum of two vectors at a rule.
fn sum_at(alloc: Global, left: &[Form], right: &[Form], rule: u32) -> Result<Form, AllocError>
    requires left { SmallVector 3 (vector_of left.now) }
    requires right { SmallVector 3 (vector_of right.now) }
    ensures { IfOk result (λ form. form_of form ≡ plus_form (vector_of left.now rule) (vector_of right.now rule)) }
{
    let zero = Form::constant_of(alloc, 0);
    let sum = plus_at(alloc, of_rule(left, &zero, rule), right, rule)?;
    Ok(sum)
}

/// The difference of two vectors at a rule.
pub(crate) fn difference_at(
    alloc: Global,
    above: &[Form],
    beneath: &[Form],
    rule: u32,
) -> Result<Form, AllocError>
    requires above { SmallVector 3 (vector_of above.now) }
    requires beneath { SmallVector 3 (vector_of beneath.now) }
    ensures { IfOk result (λ form. form_of form ≡ minus_form (vector_of above.now rule) (vector_of beneath.now rule)) }
{
    let zero = Form::constant_of(alloc, 0);
    let form = minus(
        alloc,
        of_rule(above, &zero, rule),
        of_rule(beneath, &zero, rule),
    )?;
    Ok(form)
}

/// The place of a rule in a list, from 0: so the unknowns from a number on stand for the rules of
/// the list.
fn place_in(rules: &[u32], rule: u32) -> Option<usize>
    ensures within { IfSome result (λ i. i < length rules.now) }
    ensures some { IfSome result (λ i. (first : ℕ) (other : Vector) → fresh first rules.now other rule ≡ unknown_form (first + i)) }
    ensures none { IfNone result ((first : ℕ) (other : Vector) → fresh first rules.now other rule ≡ other rule) }
{
    for (number, other) in rules.iter().enumerate() {
        if *other == rule {
            return Some(number);
        }
    }
    None
}

/// The unknown of a rule where it is in a list, else the difference of two vectors.
fn fresh_at(
    alloc: Global,
    first: u32,
    rules: &[u32],
    above: &[Form],
    beneath: &[Form],
    rule: u32,
) -> Result<Form, AllocError>
    requires numbers { first + length rules.now < 2 ^ 32 }
    requires above { SmallVector 3 (vector_of above.now) }
    requires beneath { SmallVector 3 (vector_of beneath.now) }
    ensures { IfOk result (λ form. form_of form ≡ fresh first rules.now (λ r. minus_form (vector_of above.now r) (vector_of beneath.now r)) rule) }
{
    match place_in(rules, rule) {
        None => difference_at(alloc, above, beneath, rule),
        Some(number) => unknown(alloc, first + number as u32),
    }
}

/// The unknowns from a number on for the rules of a list, in order, and for each other rule the
/// difference of two vectors.
pub(crate) fn fresh(
    alloc: Global,
    count: usize,
    first: u32,
    rules: &[u32],
    above: &[Form],
    beneath: &[Form],
) -> Result<Vec<Form>, AllocError>
    requires count { count ≤ 1024 }
    requires numbers { first + length rules.now < 2 ^ 32 }
    requires rules { AllByRecursion (λ r. r < count) rules.now }
    requires above { SmallVector 3 (vector_of above.now) }
    requires beneath { SmallVector 3 (vector_of beneath.now) }
    requires lengths { (length above.now ≤ count) × (length beneath.now ≤ count) }
    ensures value { IfOk result (λ forms. vector_of forms.items ≡ fresh first rules.now (λ r. minus_form (vector_of above.now r) (vector_of beneath.now r))) }
    ensures count { IfOk result (λ forms. length forms.items ≡ count) }
{
    let mut forms = Vec::with_capacity(alloc, count)?;
    for rule in 0..count {
        let form = fresh_at(alloc, first, rules, above, beneath, rule as u32)?;
        forms.push(form)?;
    }
    Ok(forms)
}

/// The sum of two vectors of the same rules.
pub(crate) fn sums(alloc: Global, left: &[Form], right: &[Form]) -> Result<Vec<Form>, AllocError>
    requires lengths { length left.now ≡ length right.now }
    requires few { length left.now ≤ 1024 }
    requires left { SmallVector 3 (vector_of left.now) }
    requires right { SmallVector 3 (vector_of right.now) }
    ensures value { IfOk result (λ forms. vector_of forms.items ≡ (λ r. plus_form (vector_of left.now r) (vector_of right.now r))) }
    ensures count { IfOk result (λ forms. length forms.items ≡ length left.now) }
{
    let mut forms = Vec::with_capacity(alloc, left.len())?;
    for rule in 0..left.len() {
        let sum = sum_at(alloc, left, right, rule as u32)?;
        forms.push(sum)?;
    }
    Ok(forms)
}
