//! Threshold automata: rules, guards and patterns, and the definitions of their runs.
#![tactic(auto)]

mod automaton;
mod condition;
mod file;
mod law;
mod narrow;
mod pattern;
mod rule;
mod task;

pub use automaton::Automaton;
pub use condition::{Comparison, Condition};
pub use file::File;
pub use law::laws;
pub use pattern::{Event, Pattern};
pub use rule::Rule;
pub use task::Task;
