//! Configurations of a threshold automaton in 128 bits: where they start, and their steps.
#![tactic(auto)]

mod condition;
mod config;
mod fault;
mod guards;
mod holding;
mod start;
mod step;
mod updates;

pub use condition::first_false;
pub use config::Config;
pub use fault::{StartFault, StepFault};
pub use holding::{Guards, guards_at};
