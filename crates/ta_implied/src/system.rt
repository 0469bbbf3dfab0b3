//! The system of a pair of guards.
#![tactic(auto)]

ghost use Rattle.std.specs.Prelude.{◌≡◌, ◌≢◌, ◌<◌, ◌++◌, ◌∷◌, [], IfOk, List as Rows, OnOk, length};
ghost use Rattle.ta_linear.specs.Forms.{IsNegation};
ghost use Rattle.ta_linear.specs.Numbers.{InRange};
ghost use Rattle.std.specs.Prelude.{neg_ℤ, pos, ◌-ℤ◌};
ghost use Rattle.ta_implied.specs.Implied.{ImplySystem, IsCopy};
ghost use Rattle.ta_implied.specs.Copies.{AreCopied, resilience_of};

use std::alloc::{AllocError, Global};
use ta_automaton::{Automaton, Condition};
use ta_base::List;
use ta_linear::{Form, LinearFault, Row, System};

/// A row of the same numbers.
fn copy_row(alloc: Global, row: &Row) -> Result<Row, AllocError>
    ensures { IfOk result (IsCopy row.now) }
{
    let terms = Vec::from_slice(alloc, row.form.terms.as_slice())?;
    Ok(Row {
        form: Form {
            constant: row.form.constant,
            terms: List::from_vec(terms),
        },
    })
}

/// Appends copies of some rows.
fn push_rows(alloc: Global, some: &[Row], rows: &mut Vec<Row>) -> Result<(), AllocError>
    ensures { OnOk result (AreCopied some.now rows.old.items rows.new.items) }
{
    for row in some {
        rows.push(copy_row(alloc, row)?)?;
    }
    Ok(())
}

/// Appends copies of the rows of a condition.
fn push_condition(
    alloc: Global,
    condition: &Condition,
    rows: &mut Vec<Row>,
) -> Result<(), AllocError>
    ensures { OnOk result (AreCopied (resilience_of condition.now.comparisons) rows.old.items rows.new.items) }
{
    for comparison in condition.comparisons.as_slice() {
        push_rows(alloc, comparison.rows.as_slice(), rows)?;
    }
    Ok(())
}

/// The negated row of one whose constant is far within the range.
fn negated_row(alloc: Global, row: &Row) -> Result<Row, AllocError>
    requires { InRange (neg_ℤ row.now.form.constant -ℤ pos 1) }
    ensures { IfOk result (λ negation. IsNegation negation.form row.now.form) }
{
    match row.negated(alloc) {
        Ok(negation) => Ok(negation),
        Err(LinearFault::Memory) => Err(AllocError),
        // (the constant is in range, so this doesn't come)
        Err(LinearFault::Overflow) => Err(AllocError),
    }
}

/// The system of a pair of rise guards: whether the one that comes after implies the one that comes
/// before. Only want of memory is an error: by the limits of automaton files no number leaves the
/// range.
pub fn imply_system(
    alloc: Global,
    automaton: &Automaton,
    before: u32,
    after: u32,
) -> Result<System, AllocError>
    requires before { before < length automaton.now.rise }
    requires after { after < length automaton.now.rise }
    requires apart { before ≢ after }
    ensures { IfOk result (ImplySystem automaton.now before after) }
{
    let guards = automaton.rise.as_slice();
    let mut rows = Vec::new(alloc);
    push_condition(alloc, &automaton.resilience, &mut rows)?;
    rows.push(copy_row(alloc, &guards[after as usize])?)?;
    rows.push(negated_row(alloc, &guards[before as usize])?)?;
    let parameters = automaton.parameters.as_slice().len();
    let shared = automaton.shared.as_slice().len();
    Ok(System {
        unknowns: (parameters + shared) as u32,
        rows: List::from_vec(rows),
    })
}
