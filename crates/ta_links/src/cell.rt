//! A cell of a linked dictionary.

/// A number of a row that isn't 0, or a free cell, whose value is 0. Links are indices into the vector
/// of cells: to the cells of the same row on both sides, and to those of the same column above and
/// below. The chain of free cells goes along `right`.
#[derive(Clone, Copy)]
pub struct Cell {
    pub row: u32,
    pub column: u32,
    pub value: i128,
    pub left: Option<usize>,
    pub right: Option<usize>,
    pub above: Option<usize>,
    pub below: Option<usize>,
}
