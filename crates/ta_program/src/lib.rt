//! The program, over the words, the files and the sinks that it is given.
#![tactic(auto)]

mod admit;
mod bench;
mod budget;
mod certified;
mod check;
mod compress;
mod count;
mod ends;
mod export;
mod fault_laws;
mod laws;
mod limits;
mod one_file;
mod pattern_option;
mod proof_options;
mod proofs_said;
mod reading;
mod replay;
mod request;
mod rest;
mod rest_check;
mod running;
mod search;
mod show;
mod silent_budget;
mod silent_names;
mod spelled;
mod telling;
mod two_files;
mod values;
mod verify;
mod version;
mod word_asked;
mod words;

pub use fault_laws::{faults_are_determined, faults_are_named};
pub use laws::{
    found_certificates_are_accepted, printed_rest_runs_are_replayed, printed_runs_are_replayed,
    written_certificates_are_accepted, written_rest_certificates_are_accepted,
};
pub use running::run;
