//! The maker of proofs (the walk): it visits the trees of a search and ends with a proof, with a
//! solution, or with the node where it had to give up.
//!
//! The walk takes the nodes in preorder and solves the system of each over the rationals
//! (ta_simplex). An infeasible system becomes a leaf, its Farkas certificate. At a basic feasible
//! solution the node asks, and its answers are the children; or, if it asks nothing, the walk
//! branches on the least unknown that is not integral; or all values are integral: then the node is
//! whole, and the walk stops with its solution, which becomes a run (ta_witness).
//!
//! Why the nodes of a walk without a solution are a proof: proofs/ProofsMade.antt. They are the
//! certificate as they stand, so the visit hands each on and keeps only what its open nodes need: a
//! place (ta_encode), rows (ta_encode, ta_moment_tree) and dictionaries (`Branch` of ta_simplex).
//!
//! `walking` visits with one thread, `forking` with several; the result is the same. `finding`
//! looks for implications between guards, `sampling` for parameters with an initial configuration.
//!
//! Moments on demand have another `Maker` (moment_maker.rt), by one thread, since these trees are
//! small. A node whose system is feasible asks the question that its values leave open, values over
//! their least common denominator (moment_vertex.rt): of a guard that no fact answers and some
//! firing needs, of one that fails at the end before others; else of the first two moments of which
//! neither is known to be not after the other; else, at rest, of a rule that would fire at the end
//! (asked_next.rt). What the values settle is not asked, so a guard that the pattern does not
//! depend on need not come up. The checker accepts any open question: which one is asked matters
//! for the size of the tree alone. A form whose value leaves 128 bits is not known, and the
//! question is asked as if it were the worst (known.rt).
//! Where no question is left, the values become a run (ta_witness) if they are integral, or if
//! these times their common denominator may be taken (scaling.rt); else the least unknown that is
//! not integral is split.
//!
//! Source: POPL 2017, schemas; branch and bound for integers.
#![tactic(auto)]

mod asked_next;
mod asking;
mod bounds;
mod end;
mod finding;
mod forked;
mod forking;
mod fractions;
mod gate;
mod keeper;
mod known;
mod laws;
mod maker;
mod merge;
mod merging;
mod moment_end;
mod moment_laws;
mod moment_maker;
mod moment_vertex;
mod moment_vertices;
mod moment_visiting;
mod node;
mod orders;
mod orders_laws;
mod part;
mod question;
mod roots;
mod sample_tree;
mod sampling;
mod scaling;
mod showing;
mod vertex;
mod visiting;
mod walking;
mod work;

pub use asked_next::next_question;
pub use asking::vertex_question;
pub use end::{PlaceKind, SampleEnd, TreeEnd, VisitEnd, WalkEnd};
pub use finding::{OrdersFound, find_orders};
pub use forked::{most_beside, visit, walk, walk_gated};
pub use gate::{Gate, Idle};
pub use keeper::{Keeper, Nothing, PartKeeper};
pub use known::is_met;
pub use laws::{
    endings_are_determined, ends_are_determined, found_words_are_solved, refuted_claims_hold,
    sample_ends_are_determined, samples_are_real, searches_have_ends, spent_needs_splits,
    walks_have_ends, whole_nodes_solve,
};
pub use maker::Maker;
pub use moment_end::MomentEnd;
pub use moment_laws::{found_nodes_have_one_run, moments_decide_cones, refuted_moments_hold};
pub use moment_maker::MomentMaker;
pub use moment_vertex::Vertex;
pub use moment_vertices::over_common_denominator;
pub use moment_visiting::visit_moments;
pub use orders_laws::{found_orders_are_determined, found_orders_are_sound};
pub use sampling::sample;
pub use walking::{visit_tree, visit_tree_along};
pub use work::{MOST_FORKS, Work};
