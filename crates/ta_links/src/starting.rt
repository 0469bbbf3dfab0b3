//! The cells of a system.

ghost use Rattle.std.specs.Prelude.{◌≡◌, ◌<◌, ◌≤◌, ◌^◌, ◌+◌, ◌++◌, ℕ, pos, length, drop, get_or, None, IfOk};
ghost use Rattle.ta_linear.specs.Terms.{coefficient};
ghost use Rattle.ta_linear.specs.declared.row.Row.{Row};
ghost use Rattle.ta_links.specs.Chains.{head_at};
ghost use Rattle.ta_links.specs.Values.{value_in};
ghost use Rattle.ta_links.specs.Gaps.{AreSound};
ghost use Rattle.ta_links.specs.Starting.{RowsShow, slack_heads};
ghost use Rattle.ta_dense.specs.Slack.{variables};

use crate::columns::write_columns;
use crate::linked_cells::LinkedCells;
use crate::row_head::RowHead;
use std::alloc::{AllocError, Global};
use ta_linear::System;

// A head for each of these many lines, of which none has a cell.
pub(crate) fn no_heads(alloc: Global, count: usize) -> Result<Vec<Option<usize>>, AllocError>
    ensures empty { IfOk result (λ v. (line : ℕ) → head_at v.items line ≡ None) }
    ensures long { IfOk result (λ v. length v.items ≡ count) }
{
    let mut heads = Vec::new(alloc);
    for _line in 0..count {
        heads.push(None)?;
    }
    Ok(heads)
}

// No cells, in these many rows and columns.
fn no_cells(alloc: Global, rows: usize, columns: usize) -> Result<LinkedCells, AllocError>
    ensures sound { IfOk result AreSound }
    ensures rows { IfOk result (λ l. length l.row_heads.items ≡ rows) }
    ensures columns { IfOk result (λ l. length l.column_heads.items ≡ columns) }
    ensures empty { IfOk result (λ l. length l.cells.items ≡ 0) }
    ensures free { IfOk result (λ l. l.free_head ≡ None) }
{
    Ok(LinkedCells {
        cells: Vec::new(alloc),
        row_heads: no_heads(alloc, rows)?,
        column_heads: no_heads(alloc, columns)?,
        free_head: None,
    })
}

// Writes the system's rows from the first one on, each solved for its slack.
pub(crate) fn write_rows(
    links: &mut LinkedCells,
    system: &System,
    first: u32,
) -> Result<(), AllocError>
    requires room { variables system.now < 2 ^ 32 }
    requires first { first ≤ length system.now.rows }
    requires sound { AreSound links.old }
    requires rows { length system.now.rows ≤ length links.old.row_heads.items }
    requires columns { length links.old.column_heads.items ≡ system.now.unknowns }
    requires empty { (i c : ℕ) → first ≤ i → value_in links.old.cells.items i c ≡ pos 0 }
    ensures sound { IfOk result (λ _. AreSound links.new) }
    ensures same_rows { IfOk result (λ _. length links.new.row_heads.items ≡ length links.old.row_heads.items) }
    ensures same_columns { IfOk result (λ _. length links.new.column_heads.items ≡ length links.old.column_heads.items) }
    ensures shows { IfOk result (λ _. RowsShow first (value_in links.old.cells.items) system.now.rows (length system.now.rows) (value_in links.new.cells.items)) }
    ensures free { IfOk result (λ _. links.old.free_head ≡ None → links.new.free_head ≡ None) }
{
    let list = system.rows.as_slice();
    for row in first as usize..list.len() {
        let form = &list[row].form;
        write_columns(links, row as u32, form.terms.as_slice(), form)?;
    }
    Ok(())
}

// The cells of the system's rows, each solved for its slack.
pub(crate) fn system_cells(alloc: Global, system: &System) -> Result<LinkedCells, AllocError>
    requires { variables system.now < 2 ^ 32 }
    ensures sound { IfOk result AreSound }
    ensures rows { IfOk result (λ l. length l.row_heads.items ≡ length system.now.rows) }
    ensures columns { IfOk result (λ l. length l.column_heads.items ≡ system.now.unknowns) }
    ensures shows { IfOk result (λ l. (i c : ℕ) (d : Row) → i < length system.now.rows → value_in l.cells.items i c ≡ coefficient (get_or system.now.rows i d).form.terms c) }
    ensures free { IfOk result (λ l. l.free_head ≡ None) }
{
    let count = system.rows.as_slice().len();
    let mut links = no_cells(alloc, count, system.unknowns as usize)?;
    write_rows(&mut links, system, 0)?;
    Ok(links)
}

// Adds the heads of the system's rows from the first one on, each solved for its slack.
pub(crate) fn push_heads(
    heads: &mut Vec<RowHead>,
    system: &System,
    first: u32,
) -> Result<(), AllocError>
    requires room { variables system.now < 2 ^ 32 }
    requires first { first ≤ length system.now.rows }
    ensures { IfOk result (λ _. heads.new.items ≡ heads.old.items ++ slack_heads (system.now.unknowns + first) (drop first system.now.rows)) }
{
    let (_, list) = system.rows.as_slice().split_at(first as usize);
    let mut slack = system.unknowns + first;
    for row in list {
        heads.push(RowHead {
            basic: slack,
            denominator: 1,
            constant: row.form.constant,
        })?;
        slack += 1;
    }
    Ok(())
}
