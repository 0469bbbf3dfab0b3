//! What an automaton file means: from a tree to an automaton with its patterns, or the first error.
#![tactic(auto)]

mod answers;
mod conditions;
mod declarations;
mod file;
mod forms;
mod guards;
mod laws;
mod masks;
mod named;
mod names;
mod numbers;
mod offset_law;
mod patterns;
mod places;
mod reader;
mod rules;
mod sums;
mod thresholds;
mod updates;

pub use answers::texts_have_answers;
pub use file::resolve;
pub use laws::meanings_are_unique;
pub use offset_law::{faults_are_of_the_table, faults_rise};
pub use reader::read_file;
