//! The two ways in which chains go.

ghost use Rattle.std.specs.Prelude.{◌≡◌};
ghost use Rattle.ta_links.specs.Links.{direction, with_after, with_before};

use crate::cell::Cell;

/// Along each row by rising column, or along each column by rising row.
#[derive(Clone, Copy)]
pub(crate) enum Way {
    Rows,
    Columns,
}

impl Way {
    pub(crate) fn place(self, cell: &Cell) -> u32
        ensures { result ≡ (direction self).place cell.now }
    {
        match self {
            Way::Rows => cell.column,
            Way::Columns => cell.row,
        }
    }

    pub(crate) fn after(self, cell: &Cell) -> Option<usize>
        ensures { result ≡ (direction self).after cell.now }
    {
        match self {
            Way::Rows => cell.right,
            Way::Columns => cell.below,
        }
    }

    pub(crate) fn set_after(self, cell: &mut Cell, to: Option<usize>)
        ensures { cell.new ≡ with_after self to cell.old }
    {
        match self {
            Way::Rows => cell.right = to,
            Way::Columns => cell.below = to,
        }
    }

    pub(crate) fn set_before(self, cell: &mut Cell, to: Option<usize>)
        ensures { cell.new ≡ with_before self to cell.old }
    {
        match self {
            Way::Rows => cell.left = to,
            Way::Columns => cell.above = to,
        }
    }
}
