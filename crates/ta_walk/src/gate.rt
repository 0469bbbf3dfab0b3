//! Gates before the halves of a fork.
#![tactic(auto)]

/// What the halves of a fork go through: each calls `enter` once before its first node. It returns
/// and promises nothing.
pub trait Gate: Sync {
    fn enter(&self);
}

/// The gate that is always open.
pub struct Idle {}

impl Gate for Idle {
    fn enter(&self) {}
}
