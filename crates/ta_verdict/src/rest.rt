//! The verdicts on a file's patterns where runs are to end in a deadlock, within a budget of nodes,
//! and the certificate of those that are safe.
#![tactic(auto)]

mod judging;
mod laws;
mod quiet_verdict;
mod verdict;

pub use judging::{judge_rest, judge_rest_to};
pub use laws::{
    rest_certificates_are_determined, rest_texts_are_alike, rest_verdicts_are_determined,
    rest_verdicts_are_told, rests_are_solved,
};
pub use quiet_verdict::verdict_by_moments;
pub use verdict::rest_verdict;
