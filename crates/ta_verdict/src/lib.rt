//! The verdict on each pattern of a file within a budget of nodes, a sample of its parameters, and
//! the certificate of the patterns that are safe.
//!
//! A verdict is how a visit ends (ta_walk): safe with a tree, unsafe with a run, or unknown, where
//! the budget is spent or a number left 128 bits.
//! Each pattern has the whole budget. The sample says that there are parameters with an initial
//! configuration: without one every pattern would be safe for want of runs.
//!
//! A tree is written line by line as its nodes come, into a draft in pieces of 64 KB, so no node
//! stays in memory and no long text is copied as it grows. The draft of a pattern joins the
//! certificate if the pattern is safe, and is dropped otherwise. The certificate is written to a file
//! that is staged, or held in memory.
#![tactic(auto)]

mod budget;
mod by_moments;
mod by_words;
mod draft;
mod judging;
mod laws;
mod picking;
mod pieces;
pub mod rest;
mod sampling;
mod saying;
mod target;
mod trees;

pub use budget::Budget;
pub use draft::Draft;
pub use judging::{Judged, judge_file, judge_picked_to};
pub use laws::{certificates_are_determined, verdicts_are_determined};
pub use sampling::{report_kind, sample_of};
pub use saying::{is_safe, is_unknown, is_unsafe, unwitnessed};
pub use target::Target;
pub use trees::orders_of;
