//! The rows of a system that a list of row numbers names.
#![tactic(auto)]

ghost use Rattle.std.specs.Prelude.{ℕ, ◌≡◌, ◌<◌, ◌≤◌, ◌++◌, ◌∷◌, [], List, IfOk, MatchBool, length, map};
ghost use Rattle.ta_encode.specs.Code.{AreRowsOf};
ghost use Rattle.ta_encode.specs.Lines.{BoundsWithin};
ghost use Rattle.ta_encode.specs.Inside.Lines.{AddsRows};
ghost use Rattle.ta_encode.specs.Named.{HasRows, NamesRows, row_numbered};
ghost use Rattle.ta_encode.specs.System.{LinearRow, bound_row};

use crate::meaning::Bound;
use crate::rows::push_bound;
use std::alloc::{AllocError, Global};
use ta_base::List;
use ta_linear::{Form, Row, System};

/// What a list of row numbers names in a system.
#[derive(Drop)]
pub enum Named {
    /// Rows over the system's unknowns, in the order of the list.
    Rows(System),
    /// The first number of the list that no row has.
    Absent(u32),
}

/// The rows of a system with bounds that a list names, each beside its multiplier. `system` is without
/// bounds: no row but those that are named is written or copied.
pub fn named_rows(
    alloc: Global,
    system: &System,
    bounds: &[Bound],
    multipliers: &[(u32, i128)],
) -> Result<Named, AllocError>
    requires rows { HasRows system.now }
    requires bounds { BoundsWithin system.now.unknowns bounds.now }
    ensures { (ls : List LinearRow) → AreRowsOf ls system.now.rows → IfOk result (NamesRows (ls ++ map bound_row bounds.now) system.now.unknowns multipliers.now) }
{
    let mut rows = Vec::new(alloc);
    for (number, _) in multipliers {
        if !push_named(alloc, system, bounds, *number, &mut rows)? {
            return Ok(Named::Absent(*number));
        }
    }
    Ok(Named::Rows(System {
        unknowns: system.unknowns,
        rows: List::from_vec(rows),
    }))
}

/// Adds the row of a number, where there is one, and says whether there is.
fn push_named(
    alloc: Global,
    system: &System,
    bounds: &[Bound],
    number: u32,
    rows: &mut Vec<Row>,
) -> Result<bool, AllocError>
    requires { BoundsWithin system.now.unknowns bounds.now }
    ensures { (ls : List LinearRow) → AreRowsOf ls system.now.rows → IfOk result (λ there. MatchBool there
        ((number < length (ls ++ map bound_row bounds.now)) × AddsRows (row_numbered (ls ++ map bound_row bounds.now) number ∷ []) system.now.unknowns rows.old.items rows.new.items)
        (length (ls ++ map bound_row bounds.now) ≤ number)) }
{
    let written = system.rows.as_slice();
    let number = number as usize;
    if number < written.len() {
        rows.push(copy_row(alloc, &written[number])?)?;
        return Ok(true);
    }
    let at = number - written.len();
    if at < bounds.len() {
        push_bound(alloc, system.unknowns as usize, bounds[at], rows)?;
        return Ok(true);
    }
    Ok(false)
}

/// A copy of a row.
fn copy_row(alloc: Global, row: &Row) -> Result<Row, AllocError>
    ensures constant { IfOk result (λ copy. copy.form.constant ≡ row.now.form.constant) }
    ensures terms { IfOk result (λ copy. copy.form.terms ≡ row.now.form.terms) }
{
    let terms = row.form.terms.as_slice().to_vec(alloc)?;
    Ok(Row {
        form: Form {
            constant: row.form.constant,
            terms: List::from_vec(terms),
        },
    })
}
