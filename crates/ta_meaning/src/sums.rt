//! The forms of sums and of their parts, over the first places.
#![tactic(auto)]

ghost use Rattle.std.specs.Prelude.{◌≡◌, ◌≤◌, ◌^◌, ◌*◌, length, take, MatchResult};
ghost use Rattle.ta_syntax.specs.Grammar.{named};
ghost use Rattle.ta_syntax.specs.PlainSums.{plain_sum, plain_term, plain_factor};
ghost use Rattle.ta_meaning.specs.Sums.{sum_uses, term_uses, factor_uses};
ghost use Rattle.ta_meaning.specs.Linear.{linear_sum};
ghost use Rattle.ta_meaning.specs.Faults.{Judges, Answers, where_, used_faults, number_faults, linear_term, sum_faults};
ghost use Rattle.ta_meaning.specs.Inside.Resolved.{first_places};
ghost use Rattle.ta_meaning.specs.SumParts.{FormWithin};
ghost use Rattle.ta_meaning.specs.Inside.SumParts.{judged_term, judged_factor, linear_factor, number_or, PartOf, IsSignedSum, is_large_form};

use crate::forms::{is_large_form, minus, plus, times};
use crate::numbers::read_number;
use crate::places::Places;
use std::alloc::Global;
use ta_base::List;
use ta_base::limits::LARGEST_NUMBER;
use ta_linear::Form;
use ta_syntax::{Digits, FileFault, Sign, Spelled, TreeFactor, TreeSum, TreeTerm};

/// The form of a name, which is one of the first places.
fn name_form(
    alloc: Global,
    places: &Places,
    allowed: u32,
    name: &Spelled,
) -> Result<Form, FileFault>
    requires { allowed ≤ length places.now.names }
    ensures { let names = take allowed places.now.names in
        Answers (used_faults places.now.names names name.now) (PartOf (factor_uses names (named name.now.name)) (linear_factor names (named name.now.name)) 1) result }
{
    let number = places.names.number_in(0, allowed, name)?;
    let mut terms = Vec::new(alloc);
    terms.push((number, 1))?;
    Ok(Form {
        constant: 0,
        terms: List::from_vec(terms),
    })
}

/// The number of a term, or another where it has none.
fn number_or(number: &Option<Digits>, other: u32) -> Result<u32, FileFault>
    ensures { Judges (number_faults number.now) (λ n. n ≡ number_or other number.now) result }
{
    match number {
        None => Ok(other),
        Some(digits) => read_number(digits),
    }
}

/// A form, or F6 at an offset where one of its numbers is too large.
pub(crate) fn small_form(form: Form, at: u32) -> Result<Form, FileFault>
    ensures { Judges (where_ (is_large_form form) (FileFault.TooLarge at)) (λ f. f ≡ form) result }
{
    if is_large_form(&form) {
        return Err(FileFault::TooLarge(at));
    }
    Ok(form)
}

/// The sum of small forms, the second with its sign.
fn plus_signed(alloc: Global, a: &Form, sign: Sign, b: &Form) -> Result<Form, FileFault>
    requires a { FormWithin (2 ^ 93) a.now }
    requires b { FormWithin LARGEST_NUMBER b.now }
    ensures { MatchResult result (λ sum. IsSignedSum sum a.now sign b.now) (λ e. e ≡ FileFault.Memory) }
{
    match sign {
        Sign::Plus => plus(alloc, a, b),
        Sign::Minus => minus(alloc, a, b),
    }
}

/// The form of a factor.
#[cycle(sums)]
fn factor_form(
    alloc: Global,
    places: &Places,
    allowed: u32,
    factor: &TreeFactor,
) -> Result<Form, FileFault>
    requires { allowed ≤ length places.now.names }
    ensures { let names = take allowed places.now.names in let plain = plain_factor factor.now in
        Answers (judged_factor (first_places places.now.names allowed) factor.now).faults (PartOf (factor_uses names plain) (linear_factor names plain) (2 ^ 93)) result }
{
    match factor {
        TreeFactor::Named(name) => name_form(alloc, places, allowed, name),
        TreeFactor::Nested(sum) => sum_form(alloc, places, allowed, sum),
    }
}

/// The form of a term without its sign.
#[cycle(sums)]
fn term_form(
    alloc: Global,
    places: &Places,
    allowed: u32,
    term: &TreeTerm,
) -> Result<Form, FileFault>
    requires { allowed ≤ length places.now.names }
    ensures { let names = take allowed places.now.names in let plain = plain_term term.now in
        Answers (judged_term (first_places places.now.names allowed) term.now).faults (PartOf (term_uses names plain) (linear_term names plain) LARGEST_NUMBER) result }
{
    match &term.body {
        None => {
            let number = number_or(&term.factor, 0)?;
            Ok(Form::constant_of(alloc, i128::from(number)))
        }
        Some(body) => {
            let number = number_or(&term.factor, 1)?;
            let form = factor_form(alloc, places, allowed, body)?;
            let product = times(alloc, &form, number)?;
            small_form(product, term.at)
        }
    }
}

/// The form of a sum.
#[cycle(sums)]
pub(crate) fn sum_form(
    alloc: Global,
    places: &Places,
    allowed: u32,
    sum: &TreeSum,
) -> Result<Form, FileFault>
    requires { allowed ≤ length places.now.names }
    ensures { let names = take allowed places.now.names in let plain = plain_sum sum.now in
        Answers (sum_faults (first_places places.now.names allowed) sum.now) (PartOf (sum_uses names plain) (linear_sum names plain) (2 ^ 93)) result }
{
    let mut form = Form::constant_of(alloc, 0);
    'terms: for term in sum.terms.iter() {
        let next = term_form(alloc, places, allowed, &term.1)?;
        form = plus_signed(alloc, &form, term.0, &next)?;
    }
    Ok(form)
}
