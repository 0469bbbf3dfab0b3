//! Dictionaries of the simplex method, and their pivots, in exact numbers.
//!
//! A dictionary states each basic variable by the nonbasic ones, as `d*v = b + sum of c*x` with
//! whole numbers in lowest terms and d positive. The variables are the unknowns of a system and a
//! slack for each of its rows. So a pivot is exact without fractions: it multiplies, subtracts and
//! divides by a greatest common divisor. A number that leaves 128 bits is an error; at which row it
//! does is part of the contract.
//!
//! `Dictionary` is the trait. `DenseDictionary` keeps every coefficient, in 128 bits; ta_links has
//! sparse rows. Both have the same contract, so no result depends on the choice. Most systems are
//! solved without either: ta_revised has the rows of the unknowns alone, in 16 bits.
//!
//! `extend` gives the dictionary of a longer system without repeating a pivot: only the new rows
//! are carried through the pivots that were kept. That is what a child of a tree needs.
//!
//! Source: dictionaries as in Chvátal, Linear Programming, scaled to whole numbers.
#![tactic(auto)]

mod cells;
mod dense;
mod dictionary;
mod extending;
mod kept;
mod laws;
mod rows;

pub use cells::combined;
pub use dense::DenseDictionary;
pub use dictionary::{Dictionary, ExtendFault, PivotFault};
pub use extending::{padded_items, raised_columns, raised_variable};
pub use kept::DensePivot;
pub use laws::{
    equal_rows_never_leave, pivots_keep_dictionaries, rows_are_unique, slacks_are_a_dictionary,
};
pub use rows::factors;
