//! The cycles of an automaton: which files are in scope, and how counts of rules become steps.
//!
//! A file is in scope if no rule with an update lies on a cycle of rules (`judge`). Then how often
//! each rule fires can be turned into an order of firings (`arrange`), by which the run of a
//! solution and a shorter run are made.
//!
//! Source: POPL 2017, canonical threshold automata and accelerated transitions.
#![tactic(auto)]

mod answers;
mod arrange;
mod circulation;
mod fault;
mod judge;
mod laws;
mod longer;
mod order;
mod path;
mod reach;
mod scoped;

pub use answers::scopes_have_answers;
pub use arrange::Arranged;
pub use fault::ScopeFault;
pub use laws::{arranged_steps_are_determined, arranged_steps_are_legal};
pub use longer::first_longer_cycle;
pub use scoped::{ScopedFile, scope};
