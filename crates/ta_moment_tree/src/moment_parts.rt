//! What a node's question may be about: its guards, moments and rules at the end.
#![tactic(auto)]

use crate::moment::Moment;
use ta_base::List;
use ta_linear::Form;

/// A guard: its number, the moving rules that need it, and its row at the end.
#[derive(Drop)]
pub struct GuardAtEnd {
    pub number: u32,
    pub needing: List<u32>,
    pub row: Form,
}

/// A rule that may be stuck: its number, the counter of its source at the end, and its guards' rows
/// there without the silent places.
#[derive(Drop)]
pub struct RuleAtEnd {
    pub number: u32,
    pub source: Form,
    pub rows: List<Form>,
}

/// The moving rules of a node, the vector of its end, the guards, the moments, and at rest the rules
/// that may be stuck.
#[derive(Drop)]
pub struct NodeParts<'a> {
    pub moving: &'a [u32],
    pub end: &'a [Form],
    pub guards: List<GuardAtEnd>,
    pub moments: &'a [Moment],
    pub rules: List<RuleAtEnd>,
}
