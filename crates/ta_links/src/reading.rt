//! Numbers that are read from linked cells.

ghost use Rattle.std.specs.Prelude.{◌≡◌, ◌<◌, length, get_or};
ghost use Rattle.ta_linear.specs.Numbers.{InRange};
ghost use Rattle.ta_links.specs.Values.{value_in};
ghost use Rattle.ta_links.specs.Chains.{along_rows};
ghost use Rattle.ta_links.specs.Gaps.{AreSound, IsSought};
ghost use Rattle.ta_links.specs.Linked.{no_head};

use crate::linked_cells::LinkedCells;
use crate::linking::cell_of;
use crate::row_head::RowHead;
use crate::seeking::{cell_at_place, seek_in_row};

// The number in a row and a column, whose last cell before it is `left`.
pub(crate) fn number_behind(links: &LinkedCells, row: u32, column: u32, left: Option<usize>) -> i128
    requires sound { AreSound links.now }
    requires row { row < length links.now.row_heads.items }
    requires left { IsSought along_rows links.now.cells.items links.now.row_heads.items row column left }
    ensures value { result ≡ value_in links.now.cells.items row column }
    ensures fits { InRange result }
{
    match cell_at_place(&links.cells, &links.row_heads, row, column, left) {
        Some(at) => cell_of(&links.cells, at).value,
        None => 0,
    }
}

// The number in a row and a column.
pub(crate) fn number(links: &LinkedCells, row: u32, column: u32) -> i128
    requires sound { AreSound links.now }
    requires row { row < length links.now.row_heads.items }
    ensures value { result ≡ value_in links.now.cells.items row column }
    ensures fits { InRange result }
{
    let left = seek_in_row(links, row, column, None);
    number_behind(links, row, column, left)
}

// The head of a row.
pub(crate) fn head_of(heads: &[RowHead], row: u32) -> RowHead
    requires { row < length heads.now }
    ensures { result ≡ get_or heads.now row no_head }
{
    heads[row as usize]
}
