//! Where a run stops.
#![tactic(auto)]

/// A position of a run: how often each rule fired before it, and the event that happens there, if it
/// is an event's.
#[derive(Drop)]
pub(crate) struct Stop {
    pub(crate) counts: Vec<i128>,
    pub(crate) mark: Option<u32>,
}
