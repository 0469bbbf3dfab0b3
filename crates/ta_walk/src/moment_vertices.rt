//! The values of a vertex over their least common denominator.
#![tactic(auto)]

ghost use Rattle.std.specs.Prelude.{◌≡◌, ◌≤◌, ◌<◌, ◌^◌, IfOk, None, Some, SomeIff, cond, length};
ghost use Rattle.std.specs.List.{list_all};
ghost use Rattle.ta_moments.specs.Questions.{fits};
ghost use Rattle.ta_moments.specs.Vertices.{common_denominator, numbers_over, values_of as values_of_parts};
ghost use Rattle.ta_walk.specs.Values.{values_of};
ghost use Rattle.ta_simplex.specs.Vertex.{parts_of};

use crate::Vertex;
use crate::fractions::{lowest_denominator, multiple_of, number_over};
use std::alloc::{AllocError, Global};
use ta_base::List;
use ta_simplex::Fraction;

/// The least common denominator of fractions in lowest terms, if it is in range.
fn common_denominator(values: &[Fraction]) -> Option<u128>
    ensures { SomeIff result (common_denominator (parts_of values.now) < 2 ^ 127) (common_denominator (parts_of values.now)) }
{
    let mut denominator = 1;
    for value in values {
        match multiple_of(denominator, lowest_denominator(*value)) {
            None => return None,
            Some(next) => denominator = next,
        }
    }
    Some(denominator)
}

/// Fractions times a common multiple of their denominators in lowest terms, if all are in range.
fn numbers_over(
    alloc: Global,
    denominator: u128,
    values: &[Fraction],
) -> Result<Option<List<i128>>, AllocError>
    requires { denominator < 2 ^ 127 }
    ensures { IfOk result (λ numbers. numbers ≡ cond (list_all fits (numbers_over denominator (parts_of values.now))) (Some (numbers_over denominator (parts_of values.now))) None) }
{
    let mut numbers = Vec::with_capacity(alloc, values.len())?;
    for value in values {
        match number_over(denominator, *value) {
            None => return Ok(None),
            Some(number) => numbers.push(number)?,
        }
    }
    Ok(Some(List::from_vec(numbers)))
}

/// The values of a vertex as whole numbers over their least common denominator; none where it or one
/// of the numbers is out of range. Only want of memory is an error.
pub fn over_common_denominator(
    alloc: Global,
    values: &[Fraction],
) -> Result<Option<Vertex>, AllocError>
    requires { length values.now ≤ 2 ^ 32 }
    ensures { IfOk result (λ vertex. values_of vertex ≡ values_of_parts (parts_of values.now)) }
{
    let Some(denominator) = common_denominator(values) else {
        return Ok(None);
    };
    match numbers_over(alloc, denominator, values)? {
        None => Ok(None),
        Some(numbers) => Ok(Some(Vertex {
            denominator: denominator as i128,
            numbers,
        })),
    }
}
