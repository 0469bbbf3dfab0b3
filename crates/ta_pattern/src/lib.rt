//! Conditions of patterns on configurations.
#![tactic(auto)]

mod condition;
mod empty;

pub use condition::{failing_start, holds_event};
pub use empty::holds_empty;
