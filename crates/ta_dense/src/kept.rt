//! Pivots that are kept.

ghost use Rattle.std.specs.Prelude.{◌≡◌, ◌≤◌, length, IfOk};
ghost use Rattle.ta_dense.specs.Kept.{chosen_row};
ghost use Rattle.ta_dense.specs.Merge.{IsProper};
ghost use Rattle.ta_dense.specs.Rows.{row_view};

use crate::extending::padded_row;
use crate::rows::DenseRow;
use std::alloc::{AllocError, Global};
use std::marker::Model;

/// A pivot of a dense dictionary: its row and column, and the chosen row as it was before it.
#[derive(Drop)]
pub struct DensePivot {
    pub(crate) row: u32,
    pub(crate) column: u32,
    pub(crate) chosen: DenseRow,
}

impl Model for DensePivot {
    ghost use Rattle.ta_dense.specs.Kept.{KeptPivot};

    ghost Value = { KeptPivot };

    ghost use Rattle.ta_dense.specs.KeptRows.{pivot_view, IsSoundPivot};

    ghost view = { pivot_view };

    ghost invariant = { IsSoundPivot };
}

impl DensePivot {
    pub(crate) fn of_row(row: u32, column: u32, chosen: DenseRow) -> DensePivot
        requires { IsProper (length chosen.cells.items) (row_view chosen) }
        ensures { result ≡ record { row = row; column = column; denominator = chosen.denominator; constant = chosen.constant; cells = chosen.cells.items } }
    {
        DensePivot {
            row,
            column,
            chosen,
        }
    }

    pub(crate) fn column(&self) -> u32
        ensures { result ≡ self.now.column }
    {
        self.column
    }

    /// The chosen row, with zeros up to a number of columns.
    pub(crate) fn padded(&self, alloc: Global, columns: u32) -> Result<DenseRow, AllocError>
        requires { length self.now.cells ≤ columns }
        ensures value { IfOk result (λ r. row_view r ≡ chosen_row columns self.now) }
        ensures proper { IfOk result (λ r. IsProper columns (row_view r)) }
    {
        padded_row(alloc, &self.chosen, 0, columns as usize)
    }

    pub(crate) fn copied(&self, alloc: Global) -> Result<DensePivot, AllocError>
        ensures { IfOk result (λ k. k ≡ self.now) }
    {
        let chosen = &self.chosen;
        let copy = padded_row(alloc, chosen, chosen.basic, chosen.cells.len())?;
        Ok(DensePivot::of_row(self.row, self.column, copy))
    }
}
