//! From a solution to a run that shows the pattern: of a complete schema, of a schema's system of
//! rest (a run of the file's own pattern that ends in a deadlock), of a whole node of moments.
//!
//! The solution of a schema says how often each rule fires before each element. Element by element
//! these counts are arranged into steps (`arrange` of ta_scope), behind which comes the mark of an
//! event or the one step of a Fall; the parameters and the first configuration are read off the
//! solution. So a run has at most (guards + events) * (rules + 1) accelerated steps.
//!
//! Natural values of a node of moments give each position of a moment its counts: how often each
//! rule fired before it. No question is left, so all positions are comparable; sorted, they are the
//! stops of the run (stops.rt). From each stop to the next one the missing firings are arranged,
//! and at an event's stop its mark comes behind them (moment_lines.rt). Why the steps are possible:
//! each guard that a firing needs has been asked. The first use of a rise guard is not behind the
//! stop where the piece begins, and there it holds. A fall guard holds at the end, or before its
//! last use, and so at the end of the piece, or the piece is this use itself (proofs of ta_moments,
//! `Pictures`).
//!
//! It is proved that these runs show the pattern (proofs/Witnesses.antt). They are replayed before
//! they are given all the same, since a number of the replay may leave 128 bits: the only error but
//! want of memory.
//!
//! Source: POPL 2017, short counterexamples.
#![tactic(auto)]

mod fault;
mod known;
mod laws;
mod lines;
mod moment_laws;
mod moment_lines;
mod rest_laws;
mod rest_witnessing;
mod running;
mod stop;
mod stops;
mod values;
mod witnessing;

pub use fault::WitnessFault;
pub use known::{parameters_of, starts_of};
pub use laws::{witnesses_are_determined, witnesses_show};
pub use lines::push_steps;
pub use moment_laws::{
    moment_runs_are_determined, moment_runs_are_short, moment_runs_end_marked, moment_runs_rest,
    moment_runs_show,
};
pub use rest_laws::{
    own_runs_rest, rest_solutions_solve, rest_witnesses_are_determined, rest_witnesses_rest,
};
pub use rest_witnessing::{own_run, rest_witness};
pub use running::moment_run;
pub use witnessing::witness;
