//! Walks that visit each live cell of a line.

ghost use Rattle.std.specs.Prelude.{◌≡◌, ◌<◌, length, IfOk, IfSome, IfNone};
ghost use Rattle.ta_links.specs.Gaps.{AreSound};
ghost use Rattle.ta_links.specs.Lines.{MayBeOn, IsNext, NoneLeft};
ghost use Rattle.ta_links.specs.Listing.{Lists, heads_of};

use crate::linked_cells::{LinkedCells, cell_behind};
use crate::linking::cell_of;
use crate::way::Way;
use std::alloc::{AllocError, Global};

// The heads of the lines along a way.
fn heads_along(way: Way, links: &LinkedCells) -> &[Option<usize>]
    ensures { result.now ≡ heads_of way links.now }
{
    match way {
        Way::Rows => &links.row_heads,
        Way::Columns => &links.column_heads,
    }
}

// The next live cell of a line.
pub(crate) fn next_on(
    way: Way,
    links: &LinkedCells,
    line: u32,
    before: Option<usize>,
) -> Option<usize>
    requires sound { AreSound links.now }
    requires line { line < length (heads_of way links.now) }
    requires before { MayBeOn way links.now.cells.items line before }
    ensures next { IfSome result (IsNext way links.now.cells.items line before) }
    ensures none { IfNone result (NoneLeft way links.now.cells.items line before) }
{
    let heads = heads_along(way, links);
    cell_behind(way, &links.cells, heads, line, before)
}

// The live cells of a line, each with its place and its value.
pub(crate) fn list_line(
    alloc: Global,
    way: Way,
    links: &LinkedCells,
    line: u32,
) -> Result<Vec<(u32, i128)>, AllocError>
    requires sound { AreSound links.now }
    requires line { line < length (heads_of way links.now) }
    ensures { IfOk result (λ v. Lists way links.now line v.items) }
{
    let mut list = Vec::new(alloc);
    let mut before = None;
    'list: while let Some(at) = next_on(way, links, line, before) {
        let cell = cell_of(&links.cells, at);
        list.push((way.place(&cell), cell.value))?;
        before = Some(at);
    }
    Ok(list)
}
