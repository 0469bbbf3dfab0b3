//! Places in the trees of a search: a cursor in one of them, and the number of its start.
#![tactic(auto)]

use crate::cursor::Cursor;

/// Where the trees of a search are being read or made, one after the other, one for each start with
/// which the search begins.
#[derive(Drop)]
pub struct Place<F: Copy + Drop> {
    pub(crate) cursor: Cursor<F>,
    /// The number, from 0, of the start with which the tree begins.
    pub(crate) root: usize,
}
