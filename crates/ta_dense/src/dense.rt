//! A dictionary of dense rows.

ghost use Rattle.std.specs.Prelude.{◌≡◌, IfOk, IfErr, length, replicate, pos, ◌<◌, ◌<ℤ◌};
ghost use Rattle.ta_linear.specs.Terms.{IsNormal};
ghost use Rattle.ta_dense.specs.Tableau.{cell_of, pivoted, row_of};
ghost use Rattle.ta_dense.specs.Slack.{coefficients, slack_row_of};
ghost use Rattle.ta_dense.specs.Merge.{IsProper, AllMergeInRange};
ghost use Rattle.ta_dense.specs.Fault.{IsOverflow};
ghost use Rattle.ta_dense.specs.Rows.{row_view};

use crate::dictionary::{Dictionary, ExtendFault, PivotFault};
use crate::extending::{
    carry_rows, first_columns, new_slack_rows, padded_row, raised_columns, widened_rows,
};
use crate::kept::DensePivot;
use crate::rows::{DenseRow, pivot_rows};
use std::alloc::{AllocError, Global};
use std::marker::Model;
use ta_linear::{Row, System};

/// A dictionary that keeps every cell.
#[derive(Drop)]
pub struct DenseDictionary {
    non_basic: Vec<u32>,
    rows: Vec<DenseRow>,
}

impl Model for DenseDictionary {
    ghost use Rattle.ta_dense.specs.Tableau.{Tableau};

    ghost Value = { Tableau };

    ghost use Rattle.ta_dense.specs.Dense.{tableau_of, IsSound};

    ghost view = { tableau_of };

    ghost invariant = { IsSound };
}

// Writes each coefficient into the cell of its unknown.
fn fill_cells(cells: &mut [i128], terms: &[(u32, i128)])
    requires terms { IsNormal 0 (length cells.old) terms.now }
    requires cells { cells.old ≡ replicate (length cells.old) (pos 0) }
    ensures value { cells.new ≡ coefficients (length cells.old) terms.now }
{
    for &(unknown, coefficient) in terms {
        cells[unknown as usize] = coefficient;
    }
}

// The row solved for its slack.
pub(crate) fn slack_row(
    alloc: Global,
    row: &Row,
    unknowns: u32,
    slack: u32,
) -> Result<DenseRow, AllocError>
    requires { IsNormal 0 unknowns row.now.form.terms }
    ensures value { IfOk result (λ r. row_view r ≡ slack_row_of unknowns slack row.now) }
    ensures proper { IfOk result (λ r. IsProper unknowns (row_view r)) }
{
    let mut cells = vec![in alloc; 0; unknowns as usize]?;
    fill_cells(&mut cells, row.form.terms.as_slice());
    Ok(DenseRow {
        basic: slack,
        denominator: 1,
        constant: row.form.constant,
        cells,
    })
}

impl DenseDictionary {
    ghost use Rattle.std.specs.Prelude.{◌^◌};
    ghost use Rattle.ta_dense.specs.Rows.{views, AreProper};

    pub(crate) fn from_rows(non_basic: Vec<u32>, rows: Vec<DenseRow>) -> DenseDictionary
        requires proper { AreProper (length non_basic.items) rows.items }
        requires rows_fit { length rows.items < 2 ^ 32 }
        requires columns_fit { length non_basic.items < 2 ^ 32 }
        ensures { result ≡ record { non_basic = non_basic.items; rows = views rows.items } }
    {
        DenseDictionary { non_basic, rows }
    }
}

impl Dictionary for DenseDictionary {
    type Kept = DensePivot;

    ghost tableau = { λ d. d };

    ghost pivot_of = { λ k. k };

    fn from_system(alloc: Global, system: &System) -> Result<Self, AllocError> {
        let non_basic = first_columns(alloc, system.unknowns)?;
        let rows = new_slack_rows(alloc, system, 0)?;
        Ok(DenseDictionary { non_basic, rows })
    }

    fn rows(&self) -> u32 {
        self.rows.len() as u32
    }

    fn basic(&self, row: u32) -> u32 {
        self.rows[row as usize].basic
    }

    fn non_basic_variables(&self) -> &[u32] {
        &self.non_basic
    }

    fn denominator(&self, row: u32) -> i128 {
        self.rows[row as usize].denominator
    }

    fn constant(&self, row: u32) -> i128 {
        self.rows[row as usize].constant
    }

    fn cell(&self, row: u32, column: u32) -> i128 {
        self.rows[row as usize].cells[column as usize]
    }

    fn bytes(&self) -> usize {
        self.rows
            .len()
            .saturating_mul(self.non_basic.len() + 4)
            .saturating_mul(16)
    }

    fn keep(&self, alloc: Global, row: u32, column: u32) -> Result<DensePivot, AllocError> {
        let chosen = &self.rows[row as usize];
        let copy = padded_row(alloc, chosen, chosen.basic, chosen.cells.len())?;
        Ok(DensePivot::of_row(row, column, copy))
    }

    fn pivot(self, _alloc: Global, row: u32, column: u32) -> Result<Self, PivotFault>
        requires row { row < length self.rows }
        requires column { column < length self.non_basic }
        requires positive { pos 0 <ℤ cell_of (row_of self row) column }
        ensures ok { IfOk result (λ d. d ≡ pivoted self row column) }
        ensures in_range { IfOk result (λ d. AllMergeInRange self row column) }
        ensures fault { IfErr result (IsOverflow self row column) }
    {
        let DenseDictionary {
            mut non_basic,
            mut rows,
        } = self;
        let leaving = rows[row as usize].basic;
        let entering = non_basic[column as usize];
        if let Some(at) = pivot_rows(&mut rows, row as usize, column as usize, entering) {
            return Err(PivotFault::Overflow { row: at as u32 });
        }
        non_basic[column as usize] = leaving;
        Ok(DenseDictionary { non_basic, rows })
    }

    fn extend(
        &self,
        alloc: Global,
        longer: &System,
        kept: &[DensePivot],
    ) -> Result<Self, ExtendFault> {
        let first = self.rows();
        let columns = self.columns();
        let mut carried = new_slack_rows(alloc, longer, first)?;
        if let Some(refusal) = carry_rows(alloc, &mut carried, longer.unknowns, kept)? {
            let row = first + refusal.row as u32;
            return Err(ExtendFault::Overflow {
                pivot: refusal.pivot,
                row,
            });
        }
        let new = longer.unknowns - columns;
        let mut rows = widened_rows(alloc, &self.rows, columns, new)?;
        rows.append(&mut carried)?;
        let non_basic = raised_columns(alloc, &self.non_basic, columns, new)?;
        Ok(DenseDictionary { non_basic, rows })
    }
}
