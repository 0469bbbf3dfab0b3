//! Rules.
#![tactic(auto)]

use ta_base::{List, Text};

/// A rule from one location to another. Bit i of `rise` names rise guard i, bit j of `fall` fall
/// guard j. An update adds a natural number to a shared variable, numbered from 0.
#[derive(Drop)]
pub struct Rule {
    pub name: Text,
    pub from: u32,
    pub to: u32,
    pub rise: u64,
    pub fall: u16,
    pub updates: List<(u32, i128)>,
}
