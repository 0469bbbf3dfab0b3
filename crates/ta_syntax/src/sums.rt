//! Sums of terms, as a text has them.
#![tactic(auto)]

use crate::names::{Digits, Spelled};

/// The sign before a term.
#[derive(Clone, Copy, Debug, PartialEq, Eq)]
pub enum Sign {
    Plus,
    Minus,
}

/// Terms, each with its sign. The first sign is minus exactly where the text has one.
#[cycle(sums)]
#[derive(Drop)]
pub struct TreeSum {
    pub terms: Vec<(Sign, TreeTerm)>,
}

/// A number, a factor, or their product: at least one of the two is there. The offset is that of its first token, which is behind its sign.
#[cycle(sums)]
#[derive(Drop)]
pub struct TreeTerm {
    pub at: u32,
    pub factor: Option<Digits>,
    pub body: Option<TreeFactor>,
}

/// A name, or a sum in parentheses.
#[cycle(sums)]
#[derive(Drop)]
pub enum TreeFactor {
    Named(Spelled),
    Nested(TreeSum),
}
