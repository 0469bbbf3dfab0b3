//! What may be spent on a pattern.
#![tactic(auto)]

/// What may be spent on each pattern: how many nodes of its tree are visited at most, and which tree
/// it is.
#[derive(Clone, Copy)]
pub struct Budget {
    pub nodes: u64,
    /// Whether the tree asks about moments on demand; else it lists words.
    pub lazy: bool,
}
