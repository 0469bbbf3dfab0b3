//! Rows of a system whose numbers are so small that no pivot on them leaves the range.
#![tactic(auto)]

ghost use Rattle.std.specs.Prelude.{◌≤◌, ◌≡◌, ◌+◌, ◌^◌, IsTrue, IfSome};
ghost use Rattle.ta_revised.specs.Modest.{IsModestRow, weight_of};

use ta_linear::Row;

/// The greatest sum of a row's absolute values.
const MOST: u128 = 1 << 16;

// The sum of a number and the coefficients' absolute values, if it isn't too great.
fn weight_with(start: u128, terms: &[(u32, i128)]) -> Option<u128>
    requires { start ≤ 2 ^ 16 }
    ensures value { IfSome result (λ w. w ≡ start + weight_of terms.now) }
    ensures few { IfSome result (λ w. w ≤ 2 ^ 16) }
{
    let mut sum = start;
    for &(_, coefficient) in terms {
        let weight = coefficient.unsigned_abs();
        if weight > MOST - sum {
            return None;
        }
        sum += weight;
    }
    Some(sum)
}

/// Whether the sum of all absolute values of the row is not too great.
pub(crate) fn is_modest(row: &Row) -> bool
    ensures { IsTrue result → IsModestRow row.now }
{
    let constant = row.form.constant.unsigned_abs();
    if constant > MOST {
        return false;
    }
    weight_with(constant, row.form.terms.as_slice()).is_some()
}
