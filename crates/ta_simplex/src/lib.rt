//! Feasibility of linear systems over nonnegative rationals: the simplex method with Bland's rule.
//!
//! At first every slack is basic. While a basic variable is negative, the least of these leaves,
//! and the least nonbasic variable with a positive coefficient in its row enters. If none can
//! enter, that row is a contradiction, and its coefficients are the multipliers of a Farkas
//! certificate (multipliers.rt). If no basic variable is negative, the constants are a basic
//! feasible solution (vertex.rt).
//!
//! Why it returns: no basis comes back (proofs/Bland.antt), so there are fewer pivots than sets of
//! variables. The rule leaves no choice, so values, multipliers and the number of pivots are the
//! same on every machine (`ends_are_determined`).
//!
//! Along a branch of a tree a child goes on from its parent's last dictionary (branch.rt), which is
//! a revised one, with the rows of the unknowns alone, as long as bounds show that this suffices.
//!
//! Source: Bland's rule, in its form for feasibility.
#![tactic(auto)]

use ta_base::List;

mod branch;
mod effort;
mod fault;
mod fraction;
mod full_branch;
mod laws;
mod multipliers;
mod pivots;
mod revised_branch;
mod revised_ends;
mod revised_run;
mod solving;
mod vertex;

pub use branch::Branch;
pub use effort::Effort;
pub use fault::SolveFault;
pub use fraction::Fraction;
pub use full_branch::{FullBranch, Standing};
pub use laws::{
    ends_are_determined, multipliers_are_few, prefixes_go_first, runs_are_determined,
    runs_have_ends, scaled_vertices_solve, whole_vertices_solve,
};
pub use revised_branch::{RevisedBranch, RevisedStanding};
pub use revised_run::Ran;
pub use solving::{Ended, resume, solve};

/// What a system came to.
#[derive(Drop)]
pub enum End {
    /// Multipliers of rows that refute the system, also in rational numbers.
    Refuted(List<(u32, i128)>),
    /// A value for each unknown, at least 0, at which each row holds.
    Vertex(List<Fraction>),
}
