//! What is claimed of a pattern.
#![tactic(auto)]

/// What a proof of a pattern is to show.
#[derive(Clone, Copy, Debug, Drop, PartialEq, Eq)]
pub enum Claim {
    /// The pattern occurs in no run.
    Safe,
    /// It occurs in no run that comes to rest where its last event happens.
    RestSafe,
}
