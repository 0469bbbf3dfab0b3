//! The cells of a row of 16-bit numbers, stored once for all that have them.
//!
//! A child's dictionary begins with its parent's rows, of which its pivots change some. So cells
//! are stored where the rows of several dictionaries share them, and one that changes them takes a
//! copy first (`own`). New unknowns come last, and a row has 0 there until a pivot changes it: cells
//! behind those that are stored are 0, so a row gets more columns without a copy. docs/DECISIONS.md
//! says what this gains.
#![tactic(auto)]

ghost use Rattle.std.specs.Prelude.{◌≡◌, ◌<◌, ◌≤◌, ◌^◌, ℕ, pos, ◌<ℤ◌, ◌-ℤ◌, ◌*ℤ◌, unsigned_abs, neg_ℤ, int_div, length, map, set, get_or, replicate, IfOk, IfErr, IsTrue};
ghost use Rattle.std.specs.Arc.{arc_value};
ghost use Rattle.ta_dense.specs.Tableau.{combine, gcd_with};
ghost use Rattle.ta_revised.specs.Bounds.{AllCombineIn16, AreBounded, AreSmall};
ghost use Rattle.ta_revised.specs.RowCells.{zeros_behind};

use crate::narrow_cells::{
    combine_narrow, divide_narrow, gcd_of_narrow, greatest_of, negate_narrow, scale_narrow,
};
use std::alloc::{AllocError, Global};
use std::marker::Model;
use std::sync::Arc;
use ta_dense::padded_items;

/// The cells of a row. So many of them as are not stored are 0.
#[derive(Drop)]
pub struct RowCells {
    stored: Arc<Vec<i16>>,
    count: usize,
}

impl Model for RowCells {
    ghost use Rattle.std.specs.Prelude.{List, ℤ};

    ghost Value = { List ℤ };

    ghost use Rattle.ta_revised.specs.RowCells.{cells_of, IsSoundCells};

    ghost view = { cells_of };

    ghost invariant = { IsSoundCells };
}

// The cell of a column; those behind the last one are 0.
fn cell_at(cells: &[i16], column: usize) -> i16
    ensures { result ≡ get_or cells.now column (pos 0) }
{
    if column < cells.len() {
        cells[column]
    } else {
        0
    }
}

// Takes cells of its own where others share them, or where fewer than a number of them are stored.
fn own(alloc: Global, stored: &mut Arc<Vec<i16>>, count: usize) -> Result<(), AllocError>
    ensures value { IfOk result (λ done. (arc_value stored.new).items ≡ zeros_behind (arc_value stored.old).items count) }
    ensures same { IfErr result (λ e. stored.new ≡ stored.old) }
{
    if Arc::strong_count(stored) > 1 || stored.len() < count {
        let all = stored.len().max(count);
        let copy = padded_items(alloc, stored.as_slice(), all, 0)?;
        *stored = Arc::new(alloc, copy)?;
    }
    Ok(())
}

// `p` times the cells minus `q` times the chosen ones, of which those behind the last one are 0.
fn combine_longer(p: i16, q: i16, cells: &mut [i16], chosen: &[i16])
    requires long { length chosen.now ≤ length cells.old }
    requires fit { AllCombineIn16 p q cells.old chosen.now }
    ensures { (j : ℕ) → get_or cells.new j (pos 0) ≡ p *ℤ get_or cells.old j (pos 0) -ℤ q *ℤ get_or chosen.now j (pos 0) }
{
    let (first, rest) = cells.split_at_mut(chosen.len());
    combine_narrow(p, q, first, chosen);
    scale_narrow(p, rest);
}

impl RowCells {
    /// Cells that are 0, so many of which are stored, as far as there are as many.
    pub fn zeros(alloc: Global, stored: usize, columns: usize) -> Result<RowCells, AllocError>
        ensures { IfOk result (λ r. r ≡ replicate columns (pos 0)) }
    {
        let cells = vec![in alloc; 0; stored.min(columns)]?;
        let stored = Arc::new(alloc, cells)?;
        Ok(RowCells {
            stored,
            count: columns,
        })
    }

    /// The same cells for another row, with zeros up to a number of columns. It copies none.
    pub fn padded(&self, columns: usize) -> Result<RowCells, AllocError>
        requires { length self.now ≤ columns }
        ensures { IfOk result (λ r. r ≡ zeros_behind self.now columns) }
    {
        let stored = Arc::try_clone(&self.stored)?;
        Ok(RowCells {
            stored,
            count: columns,
        })
    }

    /// The same cells for another row. It copies none.
    pub fn shared(&self) -> Result<RowCells, AllocError>
        ensures { IfOk result (λ r. r ≡ self.now) }
    {
        let stored = Arc::try_clone(&self.stored)?;
        Ok(RowCells {
            stored,
            count: self.count,
        })
    }

    /// So many of the first cells are stored, and those behind them are 0.
    pub fn stored(&self) -> usize
        ensures few { result ≤ length self.now }
        ensures behind { (j : ℕ) → result ≤ j → get_or self.now j (pos 0) ≡ pos 0 }
    {
        self.stored.len()
    }

    /// About how many bytes the stored cells take, if no other has them.
    pub fn own_bytes(&self) -> usize {
        if Arc::strong_count(&self.stored) > 1 {
            0
        } else {
            self.stored.len().saturating_mul(2)
        }
    }

    /// The cell of a column.
    pub fn at(&self, column: usize) -> i16
        ensures { result ≡ get_or self.now column (pos 0) }
    {
        cell_at(&self.stored, column)
    }

    /// The greatest of a number and the absolute values of the cells.
    pub fn greatest(&self, start: u16) -> u16
        requires start { start < 2 ^ 15 }
        requires cells { AreSmall self.now }
        ensures above { start ≤ result }
        ensures bound { AreBounded result self.now }
        ensures below { result < 2 ^ 15 }
        ensures least { (b : ℕ) → start ≤ b → AreBounded b self.now → result ≤ b }
    {
        greatest_of(start, &self.stored)
    }

    /// The greatest common divisor of a natural number and the cells.
    pub fn divisor(&self, start: u16) -> u16
        ensures { result ≡ gcd_with start self.now }
    {
        gcd_of_narrow(start, &self.stored)
    }

    /// `p` times the cells minus `q` times the chosen ones, place by place.
    pub fn combine(
        &mut self,
        alloc: Global,
        p: i16,
        q: i16,
        chosen: &RowCells,
    ) -> Result<(), AllocError>
        requires long { length self.old ≡ length chosen.now }
        requires fit { AllCombineIn16 p q self.old chosen.now }
        ensures { IfOk result (λ done. self.new ≡ combine p q self.old chosen.now) }
    {
        own(alloc, &mut self.stored, chosen.stored.len())?;
        let Some(cells) = Arc::get_mut(&mut self.stored) else {
            return Err(AllocError);
        };
        combine_longer(p, q, cells, &chosen.stored);
        Ok(())
    }

    /// Writes a number into the cell of a column.
    pub fn write(&mut self, alloc: Global, column: usize, number: i16) -> Result<(), AllocError>
        requires { column < length self.old }
        ensures { IfOk result (λ done. self.new ≡ set self.old column number) }
    {
        own(alloc, &mut self.stored, column + 1)?;
        let Some(cells) = Arc::get_mut(&mut self.stored) else {
            return Err(AllocError);
        };
        cells[column] = number;
        Ok(())
    }

    /// Divides each cell.
    pub fn divide(&mut self, alloc: Global, divisor: i16) -> Result<(), AllocError>
        requires { pos 0 <ℤ divisor }
        ensures { IfOk result (λ done. self.new ≡ map (λ z. int_div z divisor) self.old) }
    {
        own(alloc, &mut self.stored, 0)?;
        let Some(cells) = Arc::get_mut(&mut self.stored) else {
            return Err(AllocError);
        };
        divide_narrow(cells, divisor);
        Ok(())
    }

    /// Negates each cell.
    pub fn negate(&mut self, alloc: Global) -> Result<(), AllocError>
        requires { AreSmall self.old }
        ensures { IfOk result (λ done. self.new ≡ map neg_ℤ self.old) }
    {
        own(alloc, &mut self.stored, 0)?;
        let Some(cells) = Arc::get_mut(&mut self.stored) else {
            return Err(AllocError);
        };
        negate_narrow(cells);
        Ok(())
    }
}
