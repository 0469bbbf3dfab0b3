//! Values of forms at a vertex, where no number leaves the range.
#![tactic(auto)]

ghost use Rattle.std.specs.Prelude.{ℤ, ◌≡◌, ◌≢◌, ◌<◌, ◌^◌, length, slice_index_or, SomeIff, ◌-ℤ◌, ◌*ℤ◌, pos, Option, Some, option_copied};
ghost use Rattle.ta_linear.specs.Numbers.{InRange};
ghost use Rattle.ta_linear.specs.Terms.{coefficient, IsNormal};
ghost use Rattle.ta_moments.specs.Forms.{minus_form};
ghost use Rattle.ta_moments.specs.Questions.{counts_natural, counts_negative, counts_positive, if_fits, is_known_natural, known_value, with_product, with_products};
ghost use Rattle.ta_moment_tree.specs.Forms.{form_in, form_of, vector_of};
ghost use Rattle.ta_walk.specs.Values.{values_of};

use crate::merge::{Term, next_terms};
use crate::moment_vertex::Vertex;
use ta_linear::{Form, minus, multiply, plus};

/// A form's constant; 0 where there is no form.
fn constant(form: Option<&Form>) -> i128
    ensures value { result ≡ (form_in (option_copied form.entry)).constant }
    ensures fits { InRange result }
{
    match form {
        None => 0,
        Some(form) => form.constant,
    }
}

/// A difference times a factor that isn't 0, if it is in range.
fn scaled_difference(one: i128, other: i128, factor: i128) -> Option<i128>
    requires one { InRange one }
    requires other { InRange other }
    requires factor { factor ≢ pos 0 }
    ensures { result ≡ if_fits ((one -ℤ other) *ℤ factor) }
{
    match minus(one, other) {
        None => None,
        Some(difference) => multiply(difference, factor),
    }
}

/// The difference of two forms' constants, times the denominator.
fn first_sum(above: Option<&Form>, beneath: Option<&Form>, vertex: &Vertex) -> Option<i128>
    ensures { result ≡ if_fits (((form_in (option_copied above.entry)).constant -ℤ (form_in (option_copied beneath.entry)).constant) *ℤ vertex.now.denominator) }
{
    scaled_difference(constant(above), constant(beneath), vertex.denominator)
}

/// A sum with a product that is not known where it leaves the range.
fn add_known(sum: i128, product: Option<i128>) -> Option<i128>
    requires { InRange sum }
    ensures { (p : ℤ) → product ≡ if_fits p → result ≡ with_product (Some sum) p }
{
    match product {
        None => None,
        Some(product) => plus(sum, product),
    }
}

/// A sum with the product of an unknown's number and the difference of two coefficients.
fn next_sum(sum: i128, one: i128, other: i128, number: i128) -> Option<i128>
    requires sum { InRange sum }
    requires one { InRange one }
    requires other { InRange other }
    ensures { result ≡ with_product (Some sum) ((one -ℤ other) *ℤ number) }
{
    if number == 0 {
        return Some(sum);
    }
    if one == other {
        return Some(sum);
    }
    add_known(sum, scaled_difference(one, other, number))
}

/// The number of an unknown, if it has one.
fn number_of(numbers: &[i128], unknown: u32) -> Option<i128>
    ensures { SomeIff result (unknown < length numbers.now) (slice_index_or numbers.now unknown (pos 0)) }
{
    numbers.get(unknown as usize).copied()
}

/// A form's terms, by rising unknown; none where there is no form.
fn terms_of(form: Option<&Form>) -> &[Term]
    ensures coefficients { (form_in (option_copied form.entry)).coefficient ≡ coefficient result.now }
    ensures normal { IsNormal 0 (2 ^ 32) result.now }
{
    match form {
        None => &[],
        Some(form) => form.terms.as_slice(),
    }
}

/// A sum with the products of the unknowns' numbers and the differences of their coefficients in
/// two lists. An unknown that neither list has adds 0, so only those of the terms are visited: the
/// cost is the number of terms.
fn add_terms(start: i128, above: &[Term], beneath: &[Term], numbers: &[i128]) -> Option<i128>
    requires start { InRange start }
    requires above { IsNormal 0 (2 ^ 32) above.now }
    requires beneath { IsNormal 0 (2 ^ 32) beneath.now }
    ensures { result ≡ with_products (λ u. coefficient above.now u -ℤ coefficient beneath.now u) numbers.now (Some start) (length numbers.now) }
{
    let mut sum = start;
    let mut left = above;
    let mut right = beneath;
    'terms: while let Some((unknown, one, other, left_rest, right_rest)) = next_terms(left, right) {
        let Some(number) = number_of(numbers, unknown) else {
            return Some(sum);
        };
        match next_sum(sum, one, other, number) {
            None => return None,
            Some(next) => sum = next,
        }
        left = left_rest;
        right = right_rest;
    }
    Some(sum)
}

/// The value of the difference of two forms, times the denominator.
fn value_at(above: Option<&Form>, beneath: Option<&Form>, vertex: &Vertex) -> Option<i128>
    ensures { result ≡ known_value (values_of (Some vertex.now)) (minus_form (form_in (option_copied above.entry)) (form_in (option_copied beneath.entry))) }
{
    match first_sum(above, beneath, vertex) {
        None => None,
        Some(sum) => add_terms(
            sum,
            terms_of(above),
            terms_of(beneath),
            vertex.numbers.as_slice(),
        ),
    }
}

/// The same where there may be no vertex.
fn difference(above: Option<&Form>, beneath: Option<&Form>, vertex: Option<&Vertex>) -> Option<i128>
    ensures { result ≡ known_value (values_of (option_copied vertex.entry)) (minus_form (form_in (option_copied above.entry)) (form_in (option_copied beneath.entry))) }
{
    match vertex {
        None => None,
        Some(vertex) => value_at(above, beneath, vertex),
    }
}

/// The value of a form, times the denominator.
fn value(form: Option<&Form>, vertex: Option<&Vertex>) -> Option<i128>
    ensures { result ≡ known_value (values_of (option_copied vertex.entry)) (form_in (option_copied form.entry)) }
{
    difference(form, None, vertex)
}

/// Whether the difference of two forms is known to be at least 0.
pub(crate) fn is_at_least(
    above: Option<&Form>,
    beneath: Option<&Form>,
    vertex: Option<&Vertex>,
) -> bool
    ensures { result ≡ is_known_natural (known_value (values_of (option_copied vertex.entry)) (minus_form (form_in (option_copied above.entry)) (form_in (option_copied beneath.entry)))) }
{
    match difference(above, beneath, vertex) {
        None => false,
        Some(value) => value >= 0,
    }
}

/// Whether a form's value at a vertex is known and at least 0.
pub fn is_met(form: &Form, vertex: &Vertex) -> bool
    ensures { result ≡ is_known_natural (known_value (values_of (Some vertex.now)) (form_of form.now)) }
{
    match value(Some(form), Some(vertex)) {
        None => false,
        Some(value) => value >= 0,
    }
}

/// Whether a form counts as positive.
pub(crate) fn counts_positive(form: Option<&Form>, vertex: Option<&Vertex>) -> bool
    ensures { result ≡ counts_positive (known_value (values_of (option_copied vertex.entry)) (form_in (option_copied form.entry))) }
{
    match value(form, vertex) {
        None => true,
        Some(value) => value > 0,
    }
}

/// Whether a form counts as negative.
pub(crate) fn counts_negative(form: &Form, vertex: Option<&Vertex>) -> bool
    ensures { result ≡ counts_negative (known_value (values_of (option_copied vertex.entry)) (form_of form.now)) }
{
    match value(Some(form), vertex) {
        None => true,
        Some(value) => value < 0,
    }
}

/// Whether a form counts as at least 0.
pub(crate) fn counts_natural(form: &Form, vertex: Option<&Vertex>) -> bool
    ensures { result ≡ counts_natural (known_value (values_of (option_copied vertex.entry)) (form_of form.now)) }
{
    match value(Some(form), vertex) {
        None => true,
        Some(value) => value >= 0,
    }
}

/// The form of a rule in a vector.
pub(crate) fn of_rule(vector: &[Form], rule: u32) -> Option<&Form>
    ensures { form_in (option_copied result) ≡ vector_of vector.now rule }
{
    vector.get(rule as usize)
}
