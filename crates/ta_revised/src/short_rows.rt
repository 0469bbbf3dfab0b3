//! The rows of a system in short numbers.
//!
//! Which variable leaves is seen at each step from the values of the system's rows, one after the
//! other. The system's own rows have numbers of 128 bits, and a list of terms each. Here the terms
//! of all rows stand behind each other in one list, in 32 bits: a step reads a fifth of the memory.
//! The systems along a branch of a tree share their first rows, so each row is written once.
#![tactic(auto)]

ghost use Rattle.std.specs.Prelude.{ℕ, ℤ, ◌≡◌, ◌<◌, ◌≤◌, ◌+◌, ◌^◌, ◌<ℤ◌, ◌++◌, ◌∷◌, [], pos, List, length, get_or, take, slice_get, unsigned_abs, IfOk, IfSome, IfNone, IsSomeAnd};
ghost use Rattle.std.specs.Bool.{OnFalse, OnTrue};
ghost use Rattle.std.specs.List.{slice_range};
ghost use Rattle.ta_linear.specs.Terms.{IsNormal};
ghost use Rattle.ta_linear.specs.declared.row.Row.{Row as SystemRow};
ghost use Rattle.ta_revised.specs.Modest.{AreModestRows, weight_of};
ghost use Rattle.ta_revised.specs.Negative.{RowsHold, row_value};
ghost use Rattle.ta_revised.specs.ShortRows.{AreShort, parts_value};

use crate::modest::is_modest;
use std::alloc::{AllocError, Global};
use ta_linear::{Row, System};

/// A row: its constant, and from where to where its terms stand.
#[derive(Clone, Copy)]
pub struct ShortRow {
    pub constant: i32,
    pub from: u32,
    pub to: u32,
}

/// Rows whose numbers are modest: the terms of all rows, and the rows.
#[derive(Drop)]
pub struct ShortRows {
    pub terms: Vec<(u32, i32)>,
    pub rows: Vec<ShortRow>,
}

// Writes terms behind others.
fn push_terms(all: &mut Vec<(u32, i32)>, terms: &[(u32, i128)]) -> Result<(), AllocError>
    requires { weight_of terms.now ≤ 2 ^ 16 }
    ensures { IfOk result (λ done. all.new.items ≡ all.old.items ++ terms.now) }
{
    for &(unknown, coefficient) in terms {
        all.push((unknown, coefficient as i32))?;
    }
    Ok(())
}

// The scale times the value of a row with this constant and these terms.
fn row_value_of(constant: i32, terms: &[(u32, i32)], values: &[i64], scale: u32) -> i64
    requires terms { IsNormal 0 (length values.now) terms.now }
    requires modest { unsigned_abs constant + weight_of terms.now ≤ 2 ^ 16 }
    requires few { scale < 2 ^ 15 }
    requires small { (u : ℕ) → u < length values.now → unsigned_abs (get_or values.now u (pos 0)) ≤ 2 ^ 46 }
    ensures { result ≡ parts_value scale values.now (constant, terms.now) }
{
    let mut value = scale as i64 * constant as i64;
    for &(unknown, coefficient) in terms {
        value += coefficient as i64 * values[unknown as usize];
    }
    value
}

// The terms of a row.
fn terms_of(all: &[(u32, i32)], row: ShortRow) -> &[(u32, i32)]
    requires own { row.from ≤ row.to }
    requires within { row.to ≤ length all.now }
    ensures { result.now ≡ slice_range all.now row.from row.to }
{
    &all[row.from as usize..row.to as usize]
}

impl ShortRows {
    /// No rows. It takes no memory.
    pub fn new(alloc: Global) -> ShortRows
        ensures { AreShort result [] }
    {
        ShortRows {
            terms: Vec::new(alloc),
            rows: Vec::new(alloc),
        }
    }

    /// Gives up the rows behind the first ones, this many.
    pub fn cut(&mut self, count: usize)
        ensures { (rows : List SystemRow) → AreShort self.old rows → AreShort self.new (take count rows) }
    {
        if count < self.rows.len() {
            let end = self.rows[count].from as usize;
            self.terms.truncate(end);
            self.rows.truncate(count);
        }
    }

    // Writes a row behind the others, where its numbers are modest.
    fn push(&mut self, row: &Row) -> Result<bool, AllocError>
        ensures more { IfOk result (λ fits. OnTrue fits ((rows : List SystemRow) → AreShort self.old rows → AreShort self.new (rows ++ row.now ∷ []))) }
        ensures same { IfOk result (λ fits. OnFalse fits ((rows : List SystemRow) → AreShort self.old rows → AreShort self.new rows)) }
    {
        if !is_modest(row) {
            return Ok(false);
        }
        let from = self.terms.len();
        push_terms(&mut self.terms, row.form.terms.as_slice())?;
        let to = self.terms.len();
        if to > u32::MAX as usize {
            return Ok(false);
        }
        self.rows.push(ShortRow {
            constant: row.form.constant as i32,
            from: from as u32,
            to: to as u32,
        })?;
        Ok(true)
    }

    /// Writes the other rows behind those that are there, as far as their numbers are modest, and
    /// says whether all are.
    pub fn extend(&mut self, rows: &[Row]) -> Result<bool, AllocError>
        requires { AreShort self.old (take (length self.old.rows.items) rows.now) }
        ensures all { IfOk result (λ fits. OnTrue fits (AreShort self.new rows.now)) }
        ensures some { IfOk result (λ fits. AreShort self.new (take (length self.new.rows.items) rows.now)) }
    {
        for at in self.rows.len()..rows.len() {
            if !self.push(&rows[at])? {
                return Ok(false);
            }
        }
        Ok(true)
    }

    /// The first row of a system with a negative value, where these are the system's rows, and the
    /// values of the first of them, so many, are not negative.
    pub(crate) fn first_negative(
        &self,
        system: &System,
        values: &[i64],
        scale: u32,
        from: usize,
    ) -> Option<u32>
        requires rows { AreShort self.now system.now.rows }
        requires room { length system.now.rows < 2 ^ 32 }
        requires count { length values.now ≡ system.now.unknowns }
        requires few { scale < 2 ^ 15 }
        requires small { (u : ℕ) → u < length values.now → unsigned_abs (get_or values.now u (pos 0)) ≤ 2 ^ 46 }
        requires from { RowsHold scale values.now system.now.rows from }
        ensures found { IfSome result (λ i. (i < length system.now.rows) × IsSomeAnd (slice_get system.now.rows i) (λ r. row_value scale values.now r <ℤ pos 0)
            × RowsHold scale values.now system.now.rows i) }
        ensures none { IfNone result (RowsHold scale values.now system.now.rows (length system.now.rows)) }
    {
        let _system = system;
        for at in from..self.rows.len() {
            let row = self.rows[at];
            let terms = terms_of(&self.terms, row);
            if row_value_of(row.constant, terms, values, scale) < 0 {
                return Some(at as u32);
            }
        }
        None
    }
}
