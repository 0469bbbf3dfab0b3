//! Verdicts and errors as texts and as JSON; a file as it was understood, as a text for people, and
//! the unknowns of its patterns by name.
#![tactic(auto)]

mod check;
mod check_object;
mod faults;
mod laws;
mod members;
mod object;
mod pick;
mod report;
mod said;
mod show_laws;
mod shown;
mod unknowns;
mod verdict;
mod writing;

pub use check::{proofs_text, shown_line};
pub use check_object::{json_line, proofs_json, shown_json};
pub use faults::{cert_fault_phrase, file_fault_phrase, run_fault_phrase};
pub use laws::{
    json_tells, lines_tell, proofs_tell, reports_are_distinct, rest_lines_tell, runs_are_printed,
};
pub use object::{
    digits_value, lines_value, report_json, unknown_sample_value, unknown_verdict_value,
};
pub use pick::Pick;
pub use report::{report_text, rest_text};
pub use said::Said;
pub use show_laws::{shows_differ, unknowns_are_named};
pub use verdict::{ReportKind, ReportSample, Verdict};
pub use writing::show;
