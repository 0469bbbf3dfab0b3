//! Runs that end in a deadlock, the endings of patterns, and the systems of the schemas that
//! describe such runs; what rest says of runs without end that are fair.
//!
//! Which schemas are refuted for a claim on a pattern, that it is safe or that it is safe at rest,
//! and the trees of these schemas (`ClaimTree`).
#![tactic(auto)]

mod children;
mod claim;
mod claim_laws;
mod claim_tree;
mod claim_words;
mod endings;
mod fair_laws;
mod fault;
mod laws;
mod quiet_laws;
mod rest_end;
mod rest_file;
mod scoping;

pub use claim::Claim;
pub use claim_laws::proofs_show_claims;
pub use claim_tree::ClaimTree;
pub use fair_laws::{
    fair_runs_come_to_rest, resting_runs_go_on, runs_become_calm, runs_go_on_fairly,
};
pub use fault::RestFault;
pub use laws::{
    endings_rest_alike, moves_are_bounded, refuted_endings_rest, resting_runs_solve,
    solutions_come_to_rest,
};
pub use quiet_laws::{
    endings_quiet_rest_alike, loud_terms_are_left, quiet_rest_is_stuck, quiet_rest_is_weaker,
    quiet_rest_without_names,
};
pub use rest_file::RestFile;
pub use scoping::rest_scope;
