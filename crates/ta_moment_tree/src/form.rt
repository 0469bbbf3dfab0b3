//! Sums and multiples of forms whose numbers are so small that none leaves the range.
#![tactic(auto)]

ghost use Rattle.std.specs.Prelude.{ℕ, ℤ, ◌*ℤ◌, ◌≡◌, ◌≢◌, ◌≤◌, ◌^◌, ◌++◌, ◌∷◌, [], pos, negsuc, unsigned_abs, IfOk, IfSome, IsTrue};
ghost use Rattle.ta_linear.specs.Numbers.{InRange};
ghost use Rattle.ta_linear.specs.Terms.{IsNormal};
ghost use Rattle.ta_moments.specs.Forms.{below_zero, may_be_negative, minus_form, negated_form, number_form, opposite_form, plus_form, times_form, unknown_form};
ghost use Rattle.ta_moments.specs.Laws.{Speaks};
ghost use Rattle.ta_moment_tree.specs.Forms.{SmallBy, form_of, has_negative};

use std::alloc::{AllocError, Global};
use ta_base::List;
use ta_linear::{Form, LinearFault};

/// The sum of two small forms.
pub(crate) fn plus(alloc: Global, x: &Form, y: &Form) -> Result<Form, AllocError>
    requires left { SmallBy (2 ^ 120) (form_of x.now) }
    requires right { SmallBy (2 ^ 120) (form_of y.now) }
    ensures { IfOk result (λ sum. form_of sum ≡ plus_form (form_of x.now) (form_of y.now)) }
{
    match x.add(alloc, y) {
        Ok(sum) => Ok(sum),
        Err(LinearFault::Memory) => Err(AllocError),
        Err(LinearFault::Overflow) => unreachable!(),
    }
}

/// The product of a small form and a small number.
pub(crate) fn times(alloc: Global, factor: i128, x: &Form) -> Result<Form, AllocError>
    requires factor { unsigned_abs factor ≤ 2 ^ 40 }
    requires form { SmallBy (2 ^ 80) (form_of x.now) }
    ensures { IfOk result (λ product. form_of product ≡ times_form factor (form_of x.now)) }
{
    match x.scale(alloc, factor) {
        Ok(product) => Ok(product),
        Err(LinearFault::Memory) => Err(AllocError),
        Err(LinearFault::Overflow) => unreachable!(),
    }
}

/// The product of two small numbers.
fn product_of(factor: i128, number: i128) -> i128
    requires factor { unsigned_abs factor ≤ 17000000000 }
    requires number { unsigned_abs number ≤ 3 }
    ensures value { result ≡ factor *ℤ number }
    ensures fits { InRange result }
{
    factor * number
}

/// The only term of a form that has no constant.
fn only_term(x: &Form) -> Option<(u32, i128)>
    ensures { IfSome result (λ term. (x.now.constant ≡ pos 0) × (x.now.terms ≡ term ∷ [])) }
{
    if x.constant != 0 {
        return None;
    }
    let Some((term, rest)) = x.terms.as_slice().split_first() else {
        return None;
    };
    if rest.is_empty() { Some(*term) } else { None }
}

/// Whether all of some terms are of unknowns before this one.
fn is_behind(terms: &[(u32, i128)], unknown: u32) -> bool
    requires { IsNormal 0 (2 ^ 32) terms.now }
    ensures { IsTrue result → IsNormal 0 unknown terms.now }
{
    let count = terms.len();
    if count == 0 {
        return true;
    }
    terms[count - 1].0 < unknown
}

/// A form with one more term, behind the others.
fn with_term(form: Form, unknown: u32, coefficient: i128) -> Result<Form, AllocError>
    requires behind { IsNormal 0 unknown form.terms }
    requires some { coefficient ≢ pos 0 }
    requires fits { InRange coefficient }
    ensures constant { IfOk result (λ sum. sum.constant ≡ form.constant) }
    ensures terms { IfOk result (λ sum. sum.terms ≡ form.terms ++ (unknown, coefficient) ∷ []) }
{
    let Form { constant, terms } = form;
    let mut terms = terms.into_vec();
    terms.push((unknown, coefficient))?;
    Ok(Form {
        constant,
        terms: List::from_vec(terms),
    })
}

/// The sum of a small form and the product of a small number and a small form.
fn plus_product(alloc: Global, form: &Form, factor: i128, x: &Form) -> Result<Form, AllocError>
    requires form { SmallBy (2 ^ 100) (form_of form.now) }
    requires factor { unsigned_abs factor ≤ 17000000000 }
    requires x { SmallBy 3 (form_of x.now) }
    ensures { IfOk result (λ sum. form_of sum ≡ plus_form (form_of form.now) (times_form factor (form_of x.now))) }
{
    let product = times(alloc, factor, x)?;
    let sum = plus(alloc, form, &product)?;
    Ok(sum)
}

/// The sum of a small form and the product of a small number and a small form. Where the second form
/// is one unknown behind those of the first, its term is added in place.
pub(crate) fn plus_times(
    alloc: Global,
    form: Form,
    factor: i128,
    x: &Form,
) -> Result<Form, AllocError>
    requires form { SmallBy (2 ^ 100) (form_of form) }
    requires factor { unsigned_abs factor ≤ 17000000000 }
    requires x { SmallBy 3 (form_of x.now) }
    ensures { IfOk result (λ sum. form_of sum ≡ plus_form (form_of form) (times_form factor (form_of x.now))) }
{
    let Some((unknown, coefficient)) = only_term(x) else {
        return plus_product(alloc, &form, factor, x);
    };
    let product = product_of(factor, coefficient);
    if product == 0 || !is_behind(form.terms.as_slice(), unknown) {
        return plus_product(alloc, &form, factor, x);
    }
    with_term(form, unknown, product)
}

/// The difference of two small forms.
pub(crate) fn minus(alloc: Global, x: &Form, y: &Form) -> Result<Form, AllocError>
    requires left { SmallBy (2 ^ 119) (form_of x.now) }
    requires right { SmallBy (2 ^ 119) (form_of y.now) }
    ensures { IfOk result (λ difference. form_of difference ≡ minus_form (form_of x.now) (form_of y.now)) }
{
    let turned = turned(alloc, y)?;
    let sum = plus(alloc, x, &turned)?;
    Ok(sum)
}

/// A form with its signs turned.
fn turned(alloc: Global, x: &Form) -> Result<Form, AllocError>
    ensures { IfOk result (λ turned. form_of turned ≡ times_form (negsuc 0) (form_of x.now)) }
{
    match x.scale(alloc, -1) {
        Ok(turned) => Ok(turned),
        Err(LinearFault::Memory) => Err(AllocError),
        Err(LinearFault::Overflow) => unreachable!(),
    }
}

/// As a row, that a form is at most 0.
pub(crate) fn opposite(alloc: Global, x: &Form) -> Result<Form, AllocError>
    requires { SmallBy (2 ^ 119) (form_of x.now) }
    ensures { IfOk result (λ opposite. form_of opposite ≡ opposite_form (form_of x.now)) }
{
    minus(alloc, &Form::constant_of(alloc, 0), x)
}

/// As a row, that a form is negative.
pub(crate) fn negated(alloc: Global, x: &Form) -> Result<Form, AllocError>
    requires { SmallBy (2 ^ 119) (form_of x.now) }
    ensures { IfOk result (λ negated. form_of negated ≡ negated_form (form_of x.now)) }
{
    minus(alloc, &Form::constant_of(alloc, -1), x)
}

/// One unknown.
pub(crate) fn unknown(alloc: Global, number: u32) -> Result<Form, AllocError>
    ensures { IfOk result (λ form. form_of form ≡ unknown_form number) }
{
    let mut terms = Vec::new(alloc);
    terms.push((number, 1))?;
    Ok(Form {
        constant: 0,
        terms: List::from_vec(terms),
    })
}

/// A form once more.
pub(crate) fn copy(alloc: Global, x: &Form) -> Result<Form, AllocError>
    ensures { IfOk result (λ copy. form_of copy ≡ form_of x.now) }
{
    let terms = x.terms.as_slice().to_vec(alloc)?;
    Ok(Form {
        constant: x.constant,
        terms: List::from_vec(terms),
    })
}

/// Whether the constant or a coefficient is negative; where neither is, the form is at least 0 at
/// natural values.
pub(crate) fn may_be_negative(x: &Form) -> bool
    ensures { (n : ℕ) → Speaks n (form_of x.now) → result ≡ may_be_negative n (form_of x.now) }
{
    is_negative(x.constant) || has_negative(x.terms.as_slice())
}

/// Whether a number is negative.
fn is_negative(number: i128) -> bool
    ensures { result ≡ below_zero number }
{
    number < 0
}

/// Whether a coefficient is negative.
fn has_negative(terms: &[(u32, i128)]) -> bool
    ensures { result ≡ has_negative terms.now }
{
    for (_, coefficient) in terms {
        if is_negative(*coefficient) {
            return true;
        }
    }
    false
}
