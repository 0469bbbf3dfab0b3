//! Shortens a run that shows its pattern.
//!
//! The run is cut at its marks and wherever a unit step changes the truth of a guard. Between two
//! cuts every guard keeps its value, so the order of the firings does not matter: the arranged
//! steps of their counts (`arrange` of ta_scope) lead to the same end. What comes behind the last
//! mark is dropped. At most one step of each rule is left between two cuts, and one that makes a
//! fall guard false. Both runs begin at the same configuration and mark the same events in the same
//! order at the same configurations (`SameTale`). The result need not be the shortest such run.
//!
//! Cost: all guards are evaluated at every unit step, so a run may have at most 1,000,000 of them.
#![tactic(auto)]

mod compressing;
mod draft;
mod fault;
mod laws;

pub use compressing::compress;
pub use fault::CompressFault;
pub use laws::refusals_are_determined;
