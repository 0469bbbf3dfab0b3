//! Which comparisons are threshold guards.
#![tactic(auto)]

ghost use Rattle.std.specs.Prelude.{◌≡◌, ◌≢◌, true, [], ◌∷◌, length, IfSome, IfNone};
ghost use Rattle.ta_meaning.specs.Guards.{is_negative, is_positive};
ghost use Rattle.ta_meaning.specs.Inside.Numbering.{any_shared, is_no_guard, GuardOf};

use ta_automaton::Comparison;
use ta_linear::Row;

/// A threshold guard's row, by its kind.
#[derive(Drop)]
pub enum Guard {
    Rise(Row),
    Fall(Row),
}

/// The threshold guard that a comparison's rows are, the shared variables being numbered after the
/// parameters; none for two rows and for shared variables with coefficients of both signs.
pub(crate) fn guard_of(parameters: u32, comparison: Comparison) -> Option<Guard>
    ensures none { IfNone result (is_no_guard parameters comparison.rows ≡ true) }
    ensures some { IfSome result (λ guard. GuardOf parameters comparison.rows guard) }
{
    let row = only_row(comparison)?;
    if !has_negative(parameters, &row) {
        return Some(Guard::Rise(row));
    }
    if has_positive(parameters, &row) {
        return None;
    }
    Some(Guard::Fall(row))
}

/// A comparison's row, where there is one alone.
fn only_row(comparison: Comparison) -> Option<Row>
    ensures none { IfNone result (length comparison.rows ≢ 1) }
    ensures some { IfSome result (λ row. comparison.rows ≡ row ∷ []) }
{
    let mut rows = comparison.rows.into_vec();
    if rows.len() != 1 {
        return None;
    }
    rows.pop()
}

/// Whether a shared variable has a negative coefficient.
fn has_negative(parameters: u32, row: &Row) -> bool
    ensures { result ≡ any_shared is_negative parameters row.now.form.terms }
{
    let terms = row.form.terms.as_slice();
    terms
        .iter()
        .any(|t| t.0 >= parameters && is_below_zero(t.1))
}

/// Whether a shared variable has a positive coefficient.
fn has_positive(parameters: u32, row: &Row) -> bool
    ensures { result ≡ any_shared is_positive parameters row.now.form.terms }
{
    let terms = row.form.terms.as_slice();
    terms
        .iter()
        .any(|t| t.0 >= parameters && is_above_zero(t.1))
}

/// Whether a coefficient is negative.
fn is_below_zero(coefficient: i128) -> bool
    ensures { result ≡ is_negative coefficient }
{
    coefficient < 0
}

/// Whether a coefficient is positive.
fn is_above_zero(coefficient: i128) -> bool
    ensures { result ≡ is_positive coefficient }
{
    coefficient > 0
}
