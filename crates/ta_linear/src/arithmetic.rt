//! Sums and multiples of forms.
#![tactic(auto)]

ghost use Rattle.std.specs.Prelude.{◌≡◌, ◌+ℤ◌, ◌*ℤ◌, ◌^◌, [], length, OkIff, IfOk, IfNone, IfSome, OnErr};
ghost use Rattle.std.specs.Result.{IsErrOf, IsOkUnless};
ghost use Rattle.ta_linear.specs.Numbers.{InRange};
ghost use Rattle.ta_linear.specs.Sums.{StaysInRange};
ghost use Rattle.ta_linear.specs.Values.{point_of, value_of};
ghost use Rattle.ta_linear.specs.Terms.{coefficient, IsNormal};
ghost use Rattle.ta_linear.specs.Forms.{IsLeastTerm, SomeSumOutOfRange, IsSum, SumOutOfRange, IsMultiple, MultipleOutOfRange};

use crate::fault::{LinearFault, OutOfRange};
use crate::form::Form;
use crate::number::{multiply, plus, plus_product};
use std::alloc::Global;
use ta_base::List;

impl Form {
    /// The form without variables.
    pub fn constant_of(alloc: Global, value: i128) -> Form
        requires { InRange value }
        ensures constant { result.constant ≡ value }
        ensures terms { result.terms ≡ [] }
    {
        Form {
            constant: value,
            terms: List::from_vec(Vec::new(alloc)),
        }
    }

    /// What stands before a variable, or 0.
    pub fn coefficient_of(&self, variable: u32) -> i128
        ensures value { result ≡ coefficient self.now.terms variable }
        ensures fits { InRange result }
    {
        for (at, value) in self.terms.as_slice() {
            if *at == variable {
                return *value;
            }
        }
        0
    }

    /// The value where variable number i has `values[i]`. It starts with the constant and, by
    /// rising variable, forms the product and adds it.
    pub fn value_at(&self, values: &[i128]) -> Result<i128, OutOfRange>
        requires { IsNormal 0 (length values.now) self.now.terms }
        ensures { let point = point_of values.now in
            OkIff result (StaysInRange point self.now.constant self.now.terms) (value_of point self.now) }
    {
        let mut sum = self.constant;
        for (variable, coefficient) in self.terms.as_slice() {
            let number = values[*variable as usize];
            let Some(next) = plus_product(sum, *coefficient, number) else {
                return Err(OutOfRange);
            };
            sum = next;
        }
        Ok(sum)
    }

    /// The sum. Overflow exactly where its constant or a coefficient leaves the range.
    pub fn add(&self, alloc: Global, other: &Form) -> Result<Form, LinearFault>
        ensures ok { IfOk result (λ sum. IsSum sum self.now other.now) }
        ensures overflow { IsErrOf result LinearFault.Overflow → SumOutOfRange self.now other.now }
    {
        let constant = plus(self.constant, other.constant).ok_or(LinearFault::Overflow)?;
        let mut left = self.terms.as_slice();
        let mut right = other.terms.as_slice();
        let mut terms = Vec::new(alloc);
        'merge: while let Some((term, left_rest, right_rest)) = least_term(left, right)? {
            if term.1 != 0 {
                terms.push(term)?;
            }
            left = left_rest;
            right = right_rest;
        }
        Ok(Form {
            constant,
            terms: List::from_vec(terms),
        })
    }

    /// The product with a number. Overflow exactly where its constant or a coefficient leaves the
    /// range.
    pub fn scale(&self, alloc: Global, factor: i128) -> Result<Form, LinearFault>
        ensures ok { IfOk result (λ multiple. IsMultiple multiple self.now factor) }
        ensures overflow { IsErrOf result LinearFault.Overflow → MultipleOutOfRange self.now factor }
    {
        if factor == 0 {
            return Ok(Form::constant_of(alloc, 0));
        }
        let constant = multiply(factor, self.constant).ok_or(LinearFault::Overflow)?;
        let mut terms = Vec::new(alloc);
        for (variable, coefficient) in self.terms.as_slice() {
            let product = multiply(factor, *coefficient).ok_or(LinearFault::Overflow)?;
            terms.push((*variable, product))?;
        }
        Ok(Form {
            constant,
            terms: List::from_vec(terms),
        })
    }
}

type Term = (u32, i128);

/// The sum of the terms of the least variable of two lists, and what is left of the lists.
fn least_term<'a>(
    left: &'a [Term],
    right: &'a [Term],
) -> Result<Option<(Term, &'a [Term], &'a [Term])>, LinearFault>
    ensures none { IfOk result (λ o. IfNone o ((left.now ≡ []) × (right.now ≡ []))) }
    ensures some { IfOk result (λ o. IfSome o (λ s. IsLeastTerm left.now right.now s.0 s.1.now s.2.now)) }
    ensures overflow { OnErr result (SomeSumOutOfRange left.now right.now) }
    ensures fault { IsOkUnless result LinearFault.Overflow }
{
    let Some((first, left_rest)) = left.split_first() else {
        return match right.split_first() {
            None => Ok(None),
            Some((second, right_rest)) => Ok(Some((*second, left, right_rest))),
        };
    };
    match right.split_first() {
        None => Ok(Some((*first, left_rest, right))),
        Some((second, right_rest)) => {
            if first.0 < second.0 {
                Ok(Some((*first, left_rest, right)))
            } else if second.0 < first.0 {
                Ok(Some((*second, left, right_rest)))
            } else {
                match plus(first.1, second.1) {
                    None => Err(LinearFault::Overflow),
                    Some(sum) => Ok(Some(((first.0, sum), left_rest, right_rest))),
                }
            }
        }
    }
}
