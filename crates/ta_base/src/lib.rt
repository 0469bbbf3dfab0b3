//! What all crates stand on: lists and texts that contracts see as the list of their items, sets of
//! numbers as masks, the parts of texts, and decimals.
#![tactic(auto)]

pub mod bytes;
pub mod decimals;
pub mod limits;
mod list;
mod long_mask;
pub mod masks;
mod text;

pub use list::List;
pub use long_mask::LongMask;
pub use text::Text;
