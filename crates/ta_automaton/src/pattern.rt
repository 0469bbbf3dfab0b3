//! Patterns.
#![tactic(auto)]

use crate::condition::Condition;
use ta_base::{List, Text};

/// An event: bit f of `after` names an earlier event f that it comes after.
#[derive(Drop)]
pub struct Event {
    pub name: Text,
    pub after: u8,
    pub condition: Condition,
}

/// A pattern: a condition on the first configuration, a mask of locations that stay empty (bit l
/// for location l), and events.
#[derive(Drop)]
pub struct Pattern {
    pub name: Text,
    pub start: Condition,
    pub empty: u128,
    pub events: List<Event>,
}
