//! A sparse dictionary: the cells that are not 0, linked along rows and columns.
//!
//! All cells stand in one vector. Each has the indices of its neighbours in its row and in its
//! column; a line has the index of its first cell, and free cells are a chain too. A pivot merges
//! two rows place by place, takes a cell where a number stops being 0 and frees one where it
//! becomes 0. So the vector grows by no more than the numbers that stop being 0 (contract of
//! `pivot`).
//!
//! No command uses it: dense rows in 32 bits are faster (docs/DECISIONS.md). Tests compare both.
//!
//! Source: orthogonal lists as in Knuth, The Art of Computer Programming, volume 1, section 2.2.6.
#![tactic(auto)]

mod carrying;
mod cell;
mod columns;
mod extending;
mod kept;
mod lines;
mod linked;
mod linked_cells;
mod linking;
mod merging;
mod merging_all;
mod merging_rows;
mod pivoting;
mod putting;
mod reading;
mod row_head;
mod seeking;
mod starting;
mod turning;
mod way;

pub use cell::Cell;
pub use kept::LinkedPivot;
pub use linked::LinkedDictionary;
