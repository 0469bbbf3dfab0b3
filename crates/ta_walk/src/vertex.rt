//! The values of a vertex.
#![tactic(auto)]

ghost use Rattle.std.specs.Prelude.{ℕ, ◌<◌, ◌^◌, IfNone, IfOk, IfSome, IsSomeAnd, length, slice_get};
ghost use Rattle.ta_walk.specs.Visit.{AreNumbers, IsAbove, IsWhole, SplitsAt};

use std::alloc::{AllocError, Global};
use ta_base::List;
use ta_linear::floor_div;
use ta_simplex::Fraction;

/// The least unknown whose value isn't whole, and the whole number below its value.
pub(crate) fn first_split(values: &[Fraction]) -> Option<(u32, i128)>
    requires { length values.now < 2 ^ 32 }
    ensures some { IfSome result (λ split. SplitsAt values.now split.0 split.1) }
    ensures none { IfNone result ((x : ℕ) → x < length values.now → IsSomeAnd (slice_get values.now x) IsWhole) }
{
    for (unknown, value) in values.iter().enumerate() {
        if let Some(floor) = floor_of(value) {
            return Some((unknown as u32, floor));
        }
    }
    None
}

/// The whole number below a value that isn't whole.
fn floor_of(value: &Fraction) -> Option<i128>
    ensures some { IfSome result (λ floor. IsAbove floor value.now) }
    ensures none { IfNone result (IsWhole value.now) }
{
    if value.top.rem_euclid(value.bottom) == 0 {
        None
    } else {
        Some(floor_div(value.top, value.bottom))
    }
}

/// The values, where all of them are whole.
pub(crate) fn whole_values(alloc: Global, values: &[Fraction]) -> Result<List<i128>, AllocError>
    requires { (x : ℕ) → x < length values.now → IsSomeAnd (slice_get values.now x) IsWhole }
    ensures { IfOk result (AreNumbers values.now) }
{
    let mut numbers = Vec::new(alloc);
    for value in values {
        numbers.push(floor_div(value.top, value.bottom))?;
    }
    Ok(List::from_vec(numbers))
}
