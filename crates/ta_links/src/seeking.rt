//! Walks along chains.

ghost use Rattle.std.specs.Prelude.{◌≡◌, ◌<◌, ◌≤◌, ℕ, length, Some, IfSome, IfNone};
ghost use Rattle.ta_links.specs.Chains.{IsChained, place_at, along_rows};
ghost use Rattle.ta_links.specs.Gaps.{AreSound, IsEmptyPlace, IsSought, IsCellBefore, MayBefore, IsAt, spot};
ghost use Rattle.ta_links.specs.Links.{direction, following};

use crate::cell::Cell;
use crate::linked_cells::{LinkedCells, cell_behind};
use crate::linking::cell_of;
use crate::way::Way;

// The next cell of a line, if it stands before a place.
fn next_before(
    way: Way,
    cells: &[Cell],
    heads: &[Option<usize>],
    line: u32,
    place: u32,
    before: Option<usize>,
) -> Option<usize>
    requires chained { IsChained (direction way) cells.now heads.now }
    requires line { line < length heads.now }
    requires before { MayBefore (direction way) cells.now line place before }
    ensures found { IfSome result (IsCellBefore (direction way) cells.now line place) }
    ensures further { IfSome result (λ j. spot (direction way) cells.now before ≤ place_at (direction way) cells.now j) }
    ensures none { IfNone result (IsSought (direction way) cells.now heads.now line place before) }
{
    let next = cell_behind(way, cells, heads, line, before)?;
    let cell = cell_of(cells, next);
    if way.place(&cell) < place {
        Some(next)
    } else {
        None
    }
}

// The last cell of a line before a place, sought from a cell before the place on, or from the
// line's beginning.
pub(crate) fn seek(
    way: Way,
    cells: &[Cell],
    heads: &[Option<usize>],
    line: u32,
    place: u32,
    start: Option<usize>,
) -> Option<usize>
    requires chained { IsChained (direction way) cells.now heads.now }
    requires line { line < length heads.now }
    requires start { MayBefore (direction way) cells.now line place start }
    ensures { IsSought (direction way) cells.now heads.now line place result }
{
    let mut before = start;
    'seek: while let Some(next) = next_before(way, cells, heads, line, place, before) {
        before = Some(next);
    }
    before
}

// The last cell of a row before a column, sought from a cell before the column on, or from the row's
// beginning.
pub(crate) fn seek_in_row(
    links: &LinkedCells,
    row: u32,
    column: u32,
    start: Option<usize>,
) -> Option<usize>
    requires sound { AreSound links.now }
    requires row { row < length links.now.row_heads.items }
    requires start { MayBefore along_rows links.now.cells.items row column start }
    ensures { IsSought along_rows links.now.cells.items links.now.row_heads.items row column result }
{
    seek(
        Way::Rows,
        &links.cells,
        &links.row_heads,
        row,
        column,
        start,
    )
}

// The cell at a place of a row, whose last cell before it is `left`.
pub(crate) fn cell_at_place(
    cells: &[Cell],
    heads: &[Option<usize>],
    row: u32,
    column: u32,
    left: Option<usize>,
) -> Option<usize>
    requires chained { IsChained along_rows cells.now heads.now }
    requires row { row < length heads.now }
    requires left { IsSought along_rows cells.now heads.now row column left }
    ensures found { IfSome result (IsAt cells.now row column) }
    ensures none { IfNone result (IsEmptyPlace along_rows cells.now heads.now row column left) }
{
    let next = cell_behind(Way::Rows, cells, heads, row, left)?;
    if cell_of(cells, next).column == column {
        Some(next)
    } else {
        None
    }
}
