//! Runs as texts, and following a run step by step.
#![tactic(auto)]

mod fault;
mod laws;
mod names;
mod numbers;
mod reading;
mod replaying;
mod run;
mod words;
mod writing;

pub use fault::RunFault;
pub use laws::{
    pieces_are_short, pieces_show, refusals_are_determined, shown_runs_occur, texts_are_determined,
    texts_have_answers,
};
pub use names::find_pattern;
pub use numbers::read_number;
pub use reading::read_run;
pub use replaying::replay;
pub use run::{Run, RunLine, Shown};
pub use writing::print_run;
