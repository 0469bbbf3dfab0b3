//! Guards that subtract a silent place.
#![tactic(auto)]

ghost use Rattle.std.specs.Prelude.{◌≡◌, None};
ghost use Rattle.std.specs.List.{position};
ghost use Rattle.ta_moments.specs.Forms.{below_zero};
ghost use Rattle.ta_rest.specs.Quiet.{is_silent};
ghost use Rattle.ta_moments.specs.Silent.{MayBeSilent, guard_that_subtracts, subtracts};

use ta_automaton::Automaton;
use ta_linear::Row;

/// Whether a place is silent.
fn is_silent(silent: &[u32], place: u32) -> bool
    ensures { result ≡ is_silent silent.now place }
{
    silent.iter().any(|quiet| *quiet == place)
}

/// Whether a coefficient is below 0.
fn is_below_zero(coefficient: i128) -> bool
    ensures { result ≡ below_zero coefficient }
{
    coefficient < 0
}

/// Whether a row subtracts a silent place.
fn subtracts(silent: &[u32], row: &Row) -> bool
    ensures { result ≡ subtracts silent.now row.now }
{
    row.form.terms.as_slice().iter().any(|(place, coefficient)| is_silent(silent, *place)
        && is_below_zero(*coefficient))
}

/// The number of the first of some rows that subtracts a silent place.
fn first_that_subtracts(silent: &[u32], rows: &[Row]) -> Option<usize>
    ensures { result ≡ position (subtracts silent.now) rows.now }
{
    rows.iter().position(|row| subtracts(silent, row))
}

/// The first guard that subtracts a silent place.
pub(crate) fn guard_that_subtracts(automaton: &Automaton, silent: &[u32]) -> Option<u32>
    ensures is { result ≡ guard_that_subtracts automaton.now silent.now }
    ensures none { result ≡ None → MayBeSilent automaton.now silent.now }
{
    let rise = automaton.rise.as_slice();
    if let Some(number) = first_that_subtracts(silent, rise) {
        return Some(number as u32);
    }
    match first_that_subtracts(silent, automaton.fall.as_slice()) {
        Some(number) => Some((rise.len() + number) as u32),
        None => None,
    }
}
