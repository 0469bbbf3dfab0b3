//! The guards of rules, numbered by first appearance.
#![tactic(auto)]

ghost use Rattle.std.specs.Prelude.{◌≡◌, ◌<◌, ◌≤◌, ◌↔◌, IsTrue, map, length, slice_get, Some, IfSome, IfNone, All};
ghost use Rattle.ta_syntax.specs.PlainTrees.{plain_comparison};
ghost use Rattle.ta_meaning.specs.Faults.{Answers, in_guards, guard_faults, guards_faults};
ghost use Rattle.ta_meaning.specs.Inside.Resolved.{kinds_of};
ghost use Rattle.ta_meaning.specs.Inside.Numbering.{HasSameTerms, Has, SameAt, RowAnswers, guards_so_far, GuardsKept, GuardNumbered, GuardsNumbered, NumberFits, WithNumber};

use crate::conditions::resolve_comparison;
use crate::places::Places;
use crate::thresholds::{Guard, guard_of};
use std::alloc::Global;
use ta_base::limits::Limits;
use ta_linear::Row;
use ta_syntax::{FileFault, TreeComparison};

/// The distinct guards so far, by first appearance.
#[derive(Drop)]
pub struct GuardList {
    pub rise: Vec<Row>,
    pub fall: Vec<Row>,
}

/// The number of a guard among the guards of its kind.
#[derive(Clone, Copy)]
pub enum GuardNumber {
    Rise(u32),
    Fall(u32),
}

/// Guards of one rule: bit i of `rise` for rise guard i, bit j of `fall` for fall guard j.
#[derive(Clone, Copy)]
pub struct GuardMasks {
    pub rise: u64,
    pub fall: u16,
}

/// The masks of the guards that comparisons are, each numbered after the guards so far where it is
/// none of them.
pub(crate) fn number_guards(
    alloc: Global,
    limits: &Limits,
    places: &Places,
    guards: &mut GuardList,
    comparisons: &[TreeComparison],
) -> Result<GuardMasks, FileFault>
    requires { GuardsKept limits.now (kinds_of places.now) guards.old }
    ensures { Answers (guards_faults limits.now (length (kinds_of places.now).parameters) (in_guards (kinds_of places.now)) (guards_so_far (kinds_of places.now) guards.old) comparisons.now) (λ masks. GuardsNumbered limits.now (kinds_of places.now) guards.old (map plain_comparison comparisons.now) guards.new masks) result }
{
    let mut masks = GuardMasks { rise: 0, fall: 0 };
    for comparison in comparisons {
        let number = number_guard(alloc, limits, places, guards, comparison)?;
        masks = with_number(masks, number);
    }
    Ok(masks)
}

/// The number of the guard that a comparison is, after the guards so far where it is none of them:
/// F9 for no threshold guard, F7 for one more than the limits allow.
fn number_guard(
    alloc: Global,
    limits: &Limits,
    places: &Places,
    guards: &mut GuardList,
    comparison: &TreeComparison,
) -> Result<GuardNumber, FileFault>
    requires { GuardsKept limits.now (kinds_of places.now) guards.old }
    ensures { Answers (guard_faults limits.now (length (kinds_of places.now).parameters) (in_guards (kinds_of places.now)) (guards_so_far (kinds_of places.now) guards.old) comparison.now) (λ number. GuardNumbered limits.now (kinds_of places.now) guards.old (plain_comparison comparison.now) guards.new number) result }
{
    let allowed = places.parameters + places.shared;
    let rows = resolve_comparison(alloc, places, allowed, comparison)?;
    match guard_of(places.parameters, rows) {
        None => Err(FileFault::NotThreshold(comparison.at)),
        Some(Guard::Rise(row)) => {
            let number = number_row(&mut guards.rise, row, limits.rises, comparison.at)?;
            Ok(GuardNumber::Rise(number))
        }
        Some(Guard::Fall(row)) => {
            let number = number_row(&mut guards.fall, row, limits.falls, comparison.at)?;
            Ok(GuardNumber::Fall(number))
        }
    }
}

/// The number of a row among rows, as one more where it is none of them: F7 past the limit.
fn number_row(rows: &mut Vec<Row>, row: Row, limit: usize, at: u32) -> Result<u32, FileFault>
    requires few { length rows.old.items ≤ limit }
    requires limit { limit ≤ 64 }
    ensures { RowAnswers rows.old.items row limit at rows.new.items result }
{
    if let Some(number) = find_row(rows.as_slice(), &row) {
        return Ok(number);
    }
    if rows.len() >= limit {
        return Err(FileFault::TooMany(at));
    }
    let number = rows.len() as u32;
    rows.push(row)?;
    Ok(number)
}

/// The number of the first of some rows that is the same as another.
fn find_row(rows: &[Row], row: &Row) -> Option<u32>
    requires { length rows.now ≤ 64 }
    ensures none { IfNone result (¬ Has rows.now row.now) }
    ensures some { IfSome result (λ number. SameAt rows.now row.now number) }
{
    for (number, other) in rows.iter().enumerate() {
        if is_same(other, row) {
            return Some(number as u32);
        }
    }
    None
}

/// Whether two rows have the same constant and the same terms.
fn is_same(left: &Row, right: &Row) -> bool
    ensures { IsTrue result ↔ HasSameTerms left.now right.now }
{
    is_same_number(left.form.constant, right.form.constant)
        && left.form.terms.as_slice() == right.form.terms.as_slice()
}

/// Whether two numbers are the same.
fn is_same_number(left: i128, right: i128) -> bool
    ensures { IsTrue result ↔ left ≡ right }
{
    left == right
}

/// The masks with one more guard.
fn with_number(masks: GuardMasks, number: GuardNumber) -> GuardMasks
    requires { NumberFits number }
    ensures { WithNumber masks number result }
{
    match number {
        GuardNumber::Rise(number) => GuardMasks {
            rise: masks.rise | (1 << number),
            fall: masks.fall,
        },
        GuardNumber::Fall(number) => GuardMasks {
            rise: masks.rise,
            fall: masks.fall | (1 << number),
        },
    }
}
