//! The dictionary of linked rows.

ghost use Rattle.std.specs.Prelude.{◌≡◌, ◌<◌, ◌≤◌, ◌+◌, pos, ◌<ℤ◌, length, IfOk, IfErr};
ghost use Rattle.ta_dense.specs.Tableau.{cell_of, pivoted, row_of};
ghost use Rattle.ta_dense.specs.Slack.{slack_tableau};
ghost use Rattle.ta_dense.specs.Merge.{AllMergeInRange};
ghost use Rattle.ta_dense.specs.Fault.{IsPivotFault};
ghost use Rattle.ta_links.specs.Linked.{IsKeptInChains, live_count, numbers_of};
ghost use Rattle.ta_links.specs.Values.{fills, filled_rows};

use crate::cell::Cell;
use crate::extending::{Refusal, begun_cells, begun_heads, carry_rows, drop_last};
use crate::kept::LinkedPivot;
use crate::lines::{list_line, next_on};
use crate::linked_cells::LinkedCells;
use crate::linking::cell_of;
use crate::pivoting::pivot_rows;
use crate::reading::{head_of, number};
use crate::row_head::RowHead;
use crate::starting::{push_heads, system_cells};
use crate::way::Way;
use std::alloc::{AllocError, Global};
use std::marker::Model;
use ta_dense::{Dictionary, ExtendFault, PivotFault, raised_columns};
use ta_linear::System;

/// A dictionary that keeps the cells that aren't 0, linked along rows and columns.
#[derive(Drop)]
pub struct LinkedDictionary {
    non_basic: Vec<u32>,
    rows: Vec<RowHead>,
    links: LinkedCells,
}

impl Model for LinkedDictionary {
    ghost use Rattle.ta_links.specs.Linked.{Linked};

    ghost Value = { Linked };

    ghost use Rattle.ta_links.specs.Inside.Fields.{linked_of, IsSoundLinks};

    ghost view = { linked_of };

    ghost invariant = { IsSoundLinks };
}

// 1 for a number that isn't 0.
fn one_if_live(value: i128) -> usize
    ensures value { result ≡ fills (pos 0) value }
    ensures small { result ≤ 1 }
{
    if value == 0 { 0 } else { 1 }
}

// How many cells aren't 0.
fn count_live(cells: &[Cell]) -> usize
    ensures value { result ≡ live_count cells.now }
    ensures few { result ≤ length cells.now }
{
    let mut count = 0;
    for cell in cells {
        count += one_if_live(cell.value);
    }
    count
}

impl LinkedDictionary {
    /// The vector of cells. A cell whose value is 0 is a free one. The chains that start at the heads
    /// visit exactly the places whose numbers aren't 0.
    pub fn cells(&self) -> &[Cell]
        ensures value { result.now ≡ self.now.cells }
        ensures chains { IsKeptInChains self.now }
    {
        &self.links.cells
    }

    /// The index of the first cell of each row.
    pub fn row_heads(&self) -> &[Option<usize>]
        ensures { result.now ≡ self.now.row_heads }
    {
        &self.links.row_heads
    }

    /// The index of the first cell of each column.
    pub fn column_heads(&self) -> &[Option<usize>]
        ensures { result.now ≡ self.now.column_heads }
    {
        &self.links.column_heads
    }

    /// The index of the first free cell.
    pub fn free_head(&self) -> Option<usize>
        ensures { result ≡ self.now.free_head }
    {
        self.links.free_head
    }

    /// How many cells aren't 0.
    pub fn live(&self) -> usize
        ensures value { result ≡ live_count self.now.cells }
        ensures few { result ≤ length self.now.cells }
    {
        count_live(&self.links.cells)
    }

    /// How many cells are held, the free ones among them.
    pub fn held(&self) -> usize
        ensures { result ≡ length self.now.cells }
    {
        self.links.cells.len()
    }
}

impl LinkedDictionary {
    ghost use Rattle.std.specs.Prelude.{MatchOption};
    ghost use Rattle.ta_links.specs.Entering.{EntersBelow, NoneEntersBelow};

    // The column of the least non-basic variable with a positive number, from that among the columns
    // before one, and the number in this one.
    fn least_entering(&self, row: u32, least: Option<u32>, column: u32, value: i128) -> Option<u32>
        requires column { column < length self.now.tableau.non_basic }
        requires value { value ≡ numbers_of self.now.tableau row column }
        requires least { MatchOption least (NoneEntersBelow self.now.tableau row column) (EntersBelow self.now.tableau row column) }
        ensures { MatchOption result (NoneEntersBelow self.now.tableau row (column + 1)) (EntersBelow self.now.tableau row (column + 1)) }
    {
        if value <= 0 {
            return least;
        }
        match least {
            Some(best) if self.non_basic(best) < self.non_basic(column) => Some(best),
            _ => Some(column),
        }
    }
}

impl Dictionary for LinkedDictionary {
    ghost use Rattle.std.specs.Prelude.{◌^◌};
    ghost use Rattle.ta_dense.specs.Slack.{variables};

    type Kept = LinkedPivot;

    ghost tableau = { λ d. d.tableau };

    ghost pivot_of = { λ k. k };

    /// The dictionary in which every slack is basic, with its row's form. No cell is a free one.
    fn from_system(alloc: Global, system: &System) -> Result<Self, AllocError>
        requires { variables system.now < 2 ^ 32 }
        ensures value { IfOk result (λ d. d.tableau ≡ slack_tableau system.now) }
        ensures full { IfOk result (λ d. live_count d.cells ≡ length d.cells) }
    {
        let mut non_basic = Vec::new(alloc);
        for unknown in 0..system.unknowns {
            non_basic.push(unknown)?;
        }
        let links = system_cells(alloc, system)?;
        let mut rows = Vec::new(alloc);
        push_heads(&mut rows, system, 0)?;
        Ok(LinkedDictionary {
            non_basic,
            rows,
            links,
        })
    }

    fn rows(&self) -> u32 {
        self.rows.len() as u32
    }

    fn basic(&self, row: u32) -> u32 {
        head_of(&self.rows, row).basic
    }

    fn non_basic_variables(&self) -> &[u32] {
        &self.non_basic
    }

    fn denominator(&self, row: u32) -> i128 {
        head_of(&self.rows, row).denominator
    }

    fn constant(&self, row: u32) -> i128 {
        head_of(&self.rows, row).constant
    }

    fn cell(&self, row: u32, column: u32) -> i128 {
        number(&self.links, row, column)
    }

    fn bytes(&self) -> usize {
        self.rows
            .len()
            .saturating_add(self.links.cells.len())
            .saturating_mul(112)
    }

    /// It walks the row's own chain.
    fn entering(&self, row: u32) -> Option<u32> {
        let mut least = None;
        let mut before = None;
        'chain: while let Some(at) = next_on(Way::Rows, &self.links, row, before) {
            let cell = cell_of(&self.links.cells, at);
            least = self.least_entering(row, least, cell.column, cell.value);
            before = Some(at);
        }
        least
    }

    fn keep(&self, alloc: Global, row: u32, column: u32) -> Result<LinkedPivot, AllocError> {
        let head = head_of(&self.rows, row);
        let list = list_line(alloc, Way::Rows, &self.links, row)?;
        Ok(LinkedPivot::of_row(row, column, self.columns(), head, list))
    }

    /// Of the cells held afterwards, each is one that was held before, or one whose number was 0 and
    /// isn't any more.
    fn pivot(self, alloc: Global, row: u32, column: u32) -> Result<Self, PivotFault>
        requires row { row < length self.tableau.rows }
        requires column { column < length self.tableau.non_basic }
        requires positive { pos 0 <ℤ cell_of (row_of self.tableau row) column }
        ensures ok { IfOk result (λ d. d.tableau ≡ pivoted self.tableau row column) }
        ensures in_range { IfOk result (λ d. AllMergeInRange self.tableau row column) }
        ensures fault { IfErr result (IsPivotFault self.tableau row column) }
        ensures held { IfOk result (λ d. length d.cells ≤ length self.cells + filled_rows (length self.tableau.rows) (length self.tableau.non_basic) (numbers_of self.tableau) (numbers_of d.tableau)) }
    {
        let LinkedDictionary {
            mut non_basic,
            mut rows,
            mut links,
        } = self;
        let leaving = head_of(&rows, row).basic;
        let entering = non_basic[column as usize];
        let columns = non_basic.len() as u32;
        match pivot_rows(alloc, &mut rows, &mut links, columns, row, column, entering) {
            Ok(None) => {
                non_basic[column as usize] = leaving;
                Ok(LinkedDictionary {
                    non_basic,
                    rows,
                    links,
                })
            }
            Ok(Some(at)) => Err(PivotFault::Overflow { row: at }),
            Err(_) => Err(PivotFault::Memory),
        }
    }

    fn extend(
        &self,
        alloc: Global,
        longer: &System,
        kept: &[LinkedPivot],
    ) -> Result<Self, ExtendFault> {
        let old = self.columns();
        let columns = longer.unknowns;
        let first = self.rows();
        let last = longer.rows.as_slice().len() as u32;
        let count = last - first;
        let mut rows = begun_heads(alloc, &self.rows, old, longer)?;
        let mut links = begun_cells(alloc, &self.links, first, longer)?;
        let refusal = carry_rows(alloc, &mut rows, &mut links, columns, first, count, kept)?;
        if let Some(Refusal { pivot, row }) = refusal {
            return Err(ExtendFault::Overflow { pivot, row });
        }
        drop_last(&mut rows, &mut links, columns, last);
        let non_basic = raised_columns(alloc, &self.non_basic, old, columns - old)?;
        Ok(LinkedDictionary {
            non_basic,
            rows,
            links,
        })
    }
}
