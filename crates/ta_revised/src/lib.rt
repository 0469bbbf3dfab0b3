//! Dictionaries of the rows of the unknowns alone, as in the revised simplex method.
//!
//! A dictionary of a system has a row for each basic variable, and most of these are slacks: a
//! slack has the value of its system's row, so its row is a sum of rows of unknowns. So only the
//! unknowns have rows here, and a slack's row is computed where it leaves the basis. A pivot merges
//! the chosen row into far fewer rows, and a longer system needs no work at all for its new rows.
//! Which variable leaves is seen from the values of the unknowns, row by row of the system.
//!
//! Numbers are of 16 bits: most are far smaller, and loops over short numbers become vector code of
//! many places. Where bounds don't show that these suffice, or where a common scale of
//! the rows is too great, a call answers that there is none, and the caller takes dictionaries of
//! ta_dense. Rows and scales within these limits show that no number of ta_dense's dictionary
//! leaves 128 bits either (`modest_pivots_stay_in_range`).
//!
//! Source: the revised simplex method, as in Chvátal, Linear Programming.
#![tactic(auto)]

mod laws;
mod modest;
mod narrow_cells;
mod narrow_rows;
mod revised;
mod row_cells;
mod short_rows;
mod slack;
mod unknown_rows;
mod values;

pub use laws::{
    modest_pivots_stay_in_range, negatives_leave, pivots_keep_revised, rows_are_revised,
    slacks_are_revised,
};
pub use narrow_rows::NarrowRow;
pub use revised::RevisedDictionary;
pub use row_cells::RowCells;
pub use short_rows::{ShortRow, ShortRows};
