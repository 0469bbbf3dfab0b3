//! Forms whose numbers are so small that no sum and no product of them leaves the range.
#![tactic(auto)]

ghost use Rattle.std.specs.Prelude.{◌≡◌, ◌≤◌, ◌^◌, pos, negsuc, MatchResult};
ghost use Rattle.ta_linear.specs.Forms.{IsSum, IsMultiple};
ghost use Rattle.ta_meaning.specs.SumParts.{FormWithin, IsDifference};
ghost use Rattle.ta_meaning.specs.Inside.SumParts.{IsSignedSum, is_large_form};
ghost use Rattle.ta_meaning.specs.Linear.{is_large};

use std::alloc::Global;
use ta_base::limits::LARGEST_NUMBER;
use ta_linear::{Form, LinearFault, Row};
use ta_syntax::{FileFault, Sign};

/// The sum of two small forms.
pub(crate) fn plus(alloc: Global, a: &Form, b: &Form) -> Result<Form, FileFault>
    requires a { FormWithin (2 ^ 120) a.now }
    requires b { FormWithin (2 ^ 120) b.now }
    ensures { MatchResult result (λ sum. IsSum sum a.now b.now) (λ e. e ≡ FileFault.Memory) }
{
    match a.add(alloc, b) {
        Ok(sum) => Ok(sum),
        Err(LinearFault::Memory) => Err(FileFault::Memory),
        Err(LinearFault::Overflow) => unreachable!(),
    }
}

/// The product of a small form and a small number.
pub(crate) fn times(alloc: Global, a: &Form, factor: u32) -> Result<Form, FileFault>
    requires form { FormWithin (2 ^ 94) a.now }
    requires factor { factor ≤ LARGEST_NUMBER }
    ensures { MatchResult result (λ product. IsMultiple product a.now (pos factor)) (λ e. e ≡ FileFault.Memory) }
{
    match a.scale(alloc, i128::from(factor)) {
        Ok(product) => Ok(product),
        Err(LinearFault::Memory) => Err(FileFault::Memory),
        Err(LinearFault::Overflow) => unreachable!(),
    }
}

/// The negative of a form.
pub(crate) fn negative(alloc: Global, a: &Form) -> Result<Form, FileFault>
    ensures { MatchResult result (λ negative. IsMultiple negative a.now (negsuc 0)) (λ e. e ≡ FileFault.Memory) }
{
    match a.scale(alloc, -1) {
        Ok(negative) => Ok(negative),
        Err(LinearFault::Memory) => Err(FileFault::Memory),
        Err(LinearFault::Overflow) => unreachable!(),
    }
}

/// Whether a number is above 1,000,000,000 in absolute value.
fn is_large(number: i128) -> bool
    ensures { result ≡ is_large number }
{
    number.unsigned_abs() > u128::from(LARGEST_NUMBER)
}

/// Whether the constant or a coefficient of a form is above 1,000,000,000 in absolute value.
pub(crate) fn is_large_form(form: &Form) -> bool
    ensures { result ≡ is_large_form form.now }
{
    if is_large(form.constant) {
        return true;
    }
    'terms: for (_, coefficient) in form.terms.as_slice() {
        if is_large(*coefficient) {
            return true;
        }
    }
    false
}

/// A small form less another.
pub(crate) fn minus(alloc: Global, a: &Form, b: &Form) -> Result<Form, FileFault>
    requires a { FormWithin (2 ^ 93) a.now }
    requires b { FormWithin (2 ^ 93) b.now }
    ensures { MatchResult result (λ less. IsSignedSum less a.now Sign.Minus b.now) (λ e. e ≡ FileFault.Memory) }
{
    let negative = negative(alloc, b)?;
    plus(alloc, a, &negative)
}

/// The row `greater - less - shift >= 0` of two small forms.
pub(crate) fn difference(
    alloc: Global,
    greater: &Form,
    less: &Form,
    shift: u32,
) -> Result<Row, FileFault>
    requires greater { FormWithin (2 ^ 93) greater.now }
    requires less { FormWithin (2 ^ 93) less.now }
    requires shift { shift ≤ 1 }
    ensures { MatchResult result (λ row. IsDifference row.form greater.now less.now (pos shift)) (λ e. e ≡ FileFault.Memory) }
{
    let unshifted = minus(alloc, greater, less)?;
    Ok(Row {
        form: Form {
            constant: unshifted.constant - i128::from(shift),
            terms: unshifted.terms,
        },
    })
}
