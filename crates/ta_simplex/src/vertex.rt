//! The values of a vertex.
#![tactic(auto)]

ghost use Rattle.std.specs.Prelude.{◌≡◌, ◌^◌, ◌<◌, length, set, IfOk};
ghost use Rattle.ta_dense.specs.Slack.{variables};
ghost use Rattle.ta_dense.specs.Laws.{DictionaryOf};
ghost use Rattle.ta_simplex.specs.Vertex.{GivesValues, AreZeros};

use crate::fraction::Fraction;
use std::alloc::{AllocError, Global};
use ta_base::List;
use ta_dense::Dictionary;
use ta_linear::System;

// The value of each unknown.
pub(crate) fn vertex_of<D: Dictionary>(
    alloc: Global,
    system: &System,
    dictionary: &D,
) -> Result<List<Fraction>, AllocError>
    requires { DictionaryOf system.now (D.tableau dictionary.now) }
    ensures { IfOk result (GivesValues (D.tableau dictionary.now) system.now.unknowns) }
{
    let mut values = zeros(alloc, system.unknowns)?;
    for row in 0..dictionary.rows() {
        let value = Fraction {
            top: dictionary.constant(row),
            bottom: dictionary.denominator(row),
        };
        put_value(&mut values, dictionary.basic(row), value);
    }
    Ok(List::from_vec(values))
}

// Puts the value of an unknown; a slack has no place.
fn put_value(values: &mut [Fraction], variable: u32, value: Fraction)
    ensures { values.new ≡ set values.old variable value }
{
    if (variable as usize) < values.len() {
        values[variable as usize] = value;
    }
}

// A 0 for each unknown.
fn zeros(alloc: Global, unknowns: u32) -> Result<Vec<Fraction>, AllocError>
    ensures { IfOk result (λ values. AreZeros unknowns values.items) }
{
    let mut values = Vec::with_capacity(alloc, unknowns as usize)?;
    for _unknown in 0..unknowns {
        values.push(Fraction { top: 0, bottom: 1 })?;
    }
    Ok(values)
}
