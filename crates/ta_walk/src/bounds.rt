//! Whether bounds are met.
#![tactic(auto)]

ghost use Rattle.std.specs.Prelude.{◌≡◌, ◌≤◌, IfOk, Some, SomeIff, pos, unsigned_abs};
ghost use Rattle.std.specs.List.{list_all};
ghost use Rattle.ta_encode.specs.Inside.Lines.{bound_constant, bound_sense};
ghost use Rattle.ta_encode.specs.Lines.{coefficient_in_sense};
ghost use Rattle.ta_linear.specs.Numbers.{InRange};
ghost use Rattle.ta_moments.specs.Questions.{is_known_natural, known_value};
ghost use Rattle.ta_moment_tree.specs.Forms.{form_of};
ghost use Rattle.ta_moment_tree.specs.Systems.{bound_form, bound_forms};
ghost use Rattle.ta_walk.specs.Values.{values_of};

use crate::{Vertex, is_met};
use std::alloc::{AllocError, Global};
use ta_base::List;
use ta_encode::{Bound, Side};
use ta_linear::{Form, minus};

/// The constant of a bound's row, if it is in range.
fn constant_of(side: Side, floor: i128) -> Option<i128>
    ensures { SomeIff result (InRange (bound_constant side floor)) (bound_constant side floor) }
{
    match side {
        Side::Low => minus(floor, 0),
        Side::High => minus(-1, floor),
    }
}

/// What stands before the unknown of a bound.
fn sign_of(side: Side) -> i128
    ensures value { result ≡ coefficient_in_sense (bound_sense side) (pos 1) }
    ensures small { unsigned_abs result ≤ 1 }
{
    match side {
        Side::Low => -1,
        Side::High => 1,
    }
}

/// The form of a bound's row with this constant.
fn form_with(alloc: Global, bound: Bound, constant: i128) -> Result<Form, AllocError>
    requires value { constant ≡ bound_constant bound.side bound.floor }
    requires fits { InRange constant }
    ensures { IfOk result (λ form. form_of form ≡ bound_form bound) }
{
    let sign = sign_of(bound.side);
    let mut terms = Vec::new(alloc);
    terms.push((bound.unknown, sign))?;
    Ok(Form {
        constant,
        terms: List::from_vec(terms),
    })
}

/// Whether a bound's row is known at a vertex and met there.
fn is_bound_met(alloc: Global, bound: Bound, vertex: &Vertex) -> Result<bool, AllocError>
    ensures { IfOk result (λ met. met ≡ is_known_natural (known_value (values_of (Some vertex.now)) (bound_form bound))) }
{
    match constant_of(bound.side, bound.floor) {
        None => Ok(false),
        Some(constant) => {
            let form = form_with(alloc, bound, constant)?;
            Ok(is_met(&form, vertex))
        }
    }
}

/// Whether the rows of bounds are known at a vertex and met there. A number that leaves the range isn't
/// known. Only want of memory is an error.
pub(crate) fn bounds_met(
    alloc: Global,
    bounds: &[Bound],
    vertex: &Vertex,
) -> Result<bool, AllocError>
    ensures { IfOk result (λ met. met ≡ list_all (λ f. is_known_natural (known_value (values_of (Some vertex.now)) f)) (bound_forms bounds.now)) }
{
    for bound in bounds {
        let met = is_bound_met(alloc, *bound, vertex)?;
        if !met {
            return Ok(false);
        }
    }
    Ok(true)
}
