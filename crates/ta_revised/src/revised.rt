//! The dictionary of the rows of the unknowns.
#![tactic(auto)]

ghost use Rattle.std.specs.Prelude.{◌≡◌, ◌<◌, ◌≤◌, ◌+◌, ◌-◌, ◌++◌, ◌^◌, ℕ, pos, ◌<ℤ◌, length, map, set, get_or, IfOk, IfSome, IfNone};
ghost use Rattle.ta_dense.specs.Tableau.{cell_of, row_of};
ghost use Rattle.ta_dense.specs.Inside.Padded.{zero_filled};
ghost use Rattle.ta_revised.specs.Bounds.{IsBound};
ghost use Rattle.ta_revised.specs.Narrow.{narrow_view, IsNarrow};
ghost use Rattle.ta_dense.specs.Slack.{variables};
ghost use Rattle.ta_revised.specs.Chosen.{EntersBy, IsRowOf, LeavingIs, NoneEntersBy};
ghost use Rattle.ta_revised.specs.Revised.{first_rows, grown, unit_rows};
ghost use Rattle.ta_revised.specs.Scale.{IsScale};
ghost use Rattle.ta_revised.specs.Negative.{FirstHold};
ghost use Rattle.ta_revised.specs.ShortRows.{AreShort};
ghost use Rattle.ta_revised.specs.UnknownRows.{AreAfter, AreUnknownRows, IsUnknownRow, unknown_row, unknown_rows};

use crate::narrow_rows::{NarrowRow, least_bound, padded_narrow};
use crate::short_rows::ShortRows;
use crate::slack::slack_row;
use crate::unknown_rows::{UnknownRow, basic_unknowns, copied, merge_rows};
use crate::values::{least_negative, scale_of, values_of};
use std::alloc::{AllocError, Global};
use std::marker::Model;
use ta_dense::raised_columns;
use ta_linear::System;

/// About how many bytes a row takes beside its cells.
const ROW_BYTES: usize = 80;

/// The rows of the unknowns of a system, in their order, over the nonbasic variables; and which of
/// the unknowns are basic.
#[derive(Drop)]
pub struct RevisedDictionary {
    non_basic: Vec<u32>,
    rows: Vec<UnknownRow>,
    basic: Vec<u32>,
}

impl Model for RevisedDictionary {
    ghost use Rattle.ta_dense.specs.Tableau.{Tableau};

    ghost Value = { Tableau };

    ghost use Rattle.ta_revised.specs.Revised.{revised_view, IsSoundRevised};

    ghost view = { revised_view };

    ghost invariant = { IsSoundRevised };
}

// The row of an unknown where there are more columns. It shares the row's cells.
fn grown_row(row: &UnknownRow, old: usize, columns: usize) -> Result<UnknownRow, AllocError>
    requires row { IsUnknownRow old row.now }
    requires more { old ≤ columns }
    ensures value { IfOk result (λ r. unknown_row columns r ≡ zero_filled (columns - old) (unknown_row old row.now)) }
    ensures row { IfOk result (λ r. IsUnknownRow columns r) }
{
    let _old = old;
    match row {
        UnknownRow::Column { unknown, column } => Ok(UnknownRow::Column {
            unknown: *unknown,
            column: *column,
        }),
        UnknownRow::Basic(basic) => Ok(UnknownRow::Basic(padded_narrow(
            basic,
            basic.basic,
            columns,
        )?)),
    }
}

// The rows where there are more columns.
fn grown_rows(
    alloc: Global,
    rows: &[UnknownRow],
    old: usize,
    columns: usize,
) -> Result<Vec<UnknownRow>, AllocError>
    requires rows { AreUnknownRows old rows.now }
    requires more { old ≤ columns }
    ensures value { IfOk result (λ v. unknown_rows columns v.items ≡ map (zero_filled (columns - old)) (unknown_rows old rows.now)) }
    ensures rows { IfOk result (λ v. AreUnknownRows columns v.items) }
{
    let mut all = Vec::with_capacity(alloc, columns)?;
    for row in rows {
        all.push(grown_row(row, old, columns)?)?;
    }
    Ok(all)
}

// Adds the rows of new unknowns, each of which belongs to its own column.
fn push_units(rows: &mut Vec<UnknownRow>, first: u32, columns: u32) -> Result<(), AllocError>
    requires rows { AreUnknownRows columns rows.old.items }
    requires more { first ≤ columns }
    ensures value { IfOk result (λ done. unknown_rows columns rows.new.items ≡ unknown_rows columns rows.old.items ++ unit_rows columns first (columns - first)) }
    ensures rows { IfOk result (λ done. AreUnknownRows columns rows.new.items) }
{
    for unknown in first..columns {
        rows.push(UnknownRow::Column {
            unknown,
            column: unknown,
        })?;
    }
    Ok(())
}

impl RevisedDictionary {
    /// The rows where every slack is basic: each unknown belongs to its own column.
    pub fn first(alloc: Global, unknowns: u32) -> Result<RevisedDictionary, AllocError>
        ensures { IfOk result (λ d. d ≡ first_rows unknowns) }
    {
        let mut non_basic = Vec::with_capacity(alloc, unknowns as usize)?;
        for unknown in 0..unknowns {
            non_basic.push(unknown)?;
        }
        let mut rows = Vec::with_capacity(alloc, unknowns as usize)?;
        push_units(&mut rows, 0, unknowns)?;
        let basic = basic_unknowns(alloc, &rows)?;
        Ok(RevisedDictionary {
            non_basic,
            rows,
            basic,
        })
    }

    /// The rows of a longer system, in which each new unknown belongs to a new column. It shares the
    /// rows' cells.
    pub fn grown(&self, alloc: Global, unknowns: u32) -> Result<RevisedDictionary, AllocError>
        requires more { length self.now.non_basic ≤ unknowns }
        requires count { length self.now.rows ≡ length self.now.non_basic }
        requires room { (j : ℕ) → j < length self.now.non_basic → get_or self.now.non_basic j 0 + (unknowns - length self.now.non_basic) < 2 ^ 32 }
        ensures { IfOk result (λ d. d ≡ grown self.now unknowns) }
    {
        let old = self.non_basic.len() as u32;
        let non_basic = raised_columns(alloc, &self.non_basic, old, unknowns - old)?;
        let mut rows = grown_rows(alloc, &self.rows, old as usize, unknowns as usize)?;
        push_units(&mut rows, old, unknowns)?;
        let basic = basic_unknowns(alloc, &rows)?;
        Ok(RevisedDictionary {
            non_basic,
            rows,
            basic,
        })
    }

    /// The variable of each column.
    pub fn non_basic_variables(&self) -> &[u32]
        ensures value { result.now ≡ self.now.non_basic }
        ensures fits { length self.now.non_basic < 2 ^ 32 }
    {
        &self.non_basic
    }

    /// About how many bytes it holds and shares with no other.
    pub fn bytes(&self) -> usize {
        let mut bytes = self.rows.len().saturating_mul(ROW_BYTES);
        for row in self.rows.as_slice() {
            if let UnknownRow::Basic(basic) = row {
                bytes = bytes.saturating_add(basic.cells.own_bytes());
            }
        }
        bytes
    }

    /// The constant and the denominator of an unknown's row.
    pub fn value_at(&self, unknown: u32) -> (i16, i16)
        requires { unknown < length self.now.rows }
        ensures constant { result.0 ≡ (row_of self.now unknown).constant }
        ensures denominator { result.1 ≡ (row_of self.now unknown).denominator }
        ensures positive { pos 0 <ℤ result.1 }
    {
        match &self.rows[unknown as usize] {
            UnknownRow::Column { .. } => (0, 1),
            UnknownRow::Basic(basic) => (basic.constant, basic.denominator),
        }
    }

    /// A common multiple of the denominators, if it isn't too great.
    pub fn scale(&self) -> Option<u32>
        ensures scale { IfSome result (λ scale. IsScale scale self.now.rows) }
        ensures small { IfSome result (λ scale. (u : ℕ) → u < length self.now.rows → IsBound (2 ^ 31) (row_of self.now u)) }
    {
        scale_of(&self.rows, &self.basic, self.non_basic.len())
    }

    /// The least variable of the system with a negative value where the nonbasic variables are 0,
    /// from its rows in short numbers. The first of them, so many, hold.
    pub fn leaving(
        &self,
        alloc: Global,
        system: &System,
        rows: &ShortRows,
        scale: u32,
        from: usize,
    ) -> Result<Option<u32>, AllocError>
        requires room { variables system.now < 2 ^ 32 }
        requires count { length self.now.rows ≡ system.now.unknowns }
        requires rows { AreShort rows.now system.now.rows }
        requires hold { FirstHold system.now self.now from }
        requires scale { IsScale scale self.now.rows }
        ensures { IfOk result (λ o. LeavingIs scale system.now self.now o) }
    {
        let values = values_of(alloc, &self.rows, &self.basic, self.non_basic.len(), scale)?;
        Ok(least_negative(system, rows, &values, scale, from))
    }

    /// The row of a variable that leaves, where bounds show that it fits 16 bits: an unknown's own,
    /// and a slack's as the sum of these.
    pub fn row(
        &self,
        alloc: Global,
        system: &System,
        variable: u32,
        scale: u32,
    ) -> Result<Option<NarrowRow>, AllocError>
        requires variable { variable < variables system.now }
        requires count { length self.now.rows ≡ system.now.unknowns }
        requires scale { IsScale scale self.now.rows }
        ensures value { IfOk result (λ o. IfSome o (λ r. IsRowOf scale system.now self.now variable (narrow_view r))) }
        ensures narrow { IfOk result (λ o. IfSome o (λ r. IsNarrow (length self.now.non_basic) r)) }
    {
        if variable >= system.unknowns {
            let row = &system.rows.as_slice()[(variable - system.unknowns) as usize];
            return slack_row(
                alloc,
                &self.rows,
                self.non_basic.len(),
                row,
                variable,
                scale,
            );
        }
        match &self.rows[variable as usize] {
            UnknownRow::Column { .. } => Ok(None),
            UnknownRow::Basic(basic) => Ok(Some(copied(basic)?)),
        }
    }

    /// The column of the least nonbasic variable with a positive cell in the row.
    pub fn entering(&self, row: &NarrowRow) -> Option<u32>
        requires { length row.now.cells ≡ length self.now.non_basic }
        ensures found { IfSome result (EntersBy self.now.non_basic (narrow_view row.now)) }
        ensures none { IfNone result (NoneEntersBy self.now.non_basic (narrow_view row.now)) }
    {
        let columns = self.non_basic.len().min(row.cells.stored());
        let mut least = None;
        for column in 0..columns as u32 {
            if row.cells.at(column as usize) > 0 {
                least = match least {
                    Some(best) if self.non_basic[best as usize] < self.non_basic[column as usize] =>
                        { Some(best) }
                    _ => Some(column),
                };
            }
        }
        least
    }

    /// The rows after the pivot on a cell of the row of the variable that leaves, where bounds show
    /// that all of it fits 16 bits.
    pub fn pivot(
        self,
        alloc: Global,
        chosen: NarrowRow,
        column: u32,
    ) -> Result<Option<RevisedDictionary>, AllocError>
        requires chosen { IsNarrow (length self.non_basic) chosen }
        requires column { column < length self.non_basic }
        requires positive { pos 0 <ℤ cell_of (narrow_view chosen) column }
        ensures non_basic { IfOk result (λ o. IfSome o (λ d. d.non_basic ≡ set self.non_basic column chosen.basic)) }
        ensures rows { IfOk result (λ o. IfSome o (λ d. AreAfter (length self.non_basic) column (narrow_view chosen) self.rows d.rows)) }
    {
        let RevisedDictionary {
            mut non_basic,
            mut rows,
            basic: _,
        } = self;
        let mut chosen = chosen;
        chosen.bound = least_bound(&chosen);
        let Some(basic) = merge_rows(alloc, &mut rows, &chosen, column)? else {
            return Ok(None);
        };
        non_basic[column as usize] = chosen.basic;
        Ok(Some(RevisedDictionary {
            non_basic,
            rows,
            basic,
        }))
    }
}
