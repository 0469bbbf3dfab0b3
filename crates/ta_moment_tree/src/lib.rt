//! The trees of moments on demand of a pattern, as the trees of a search (ta_encode), and the
//! systems of their nodes.
//!
//! There is a tree for each candidate, an event that may be the last. Most of what a cursor asks
//! follows from the facts without the rows: how many moments and unknowns there are (count.rt),
//! what may be asked (ask.rt), the answers (answer.rt). Only a leaf and the maker need the system,
//! which is written on from that of the node before (part.rt).
//!
//! A moment is a position of a run. Its vector has for each rule a form in the unknowns: how often
//! the rule fired before that position. Sums do not depend on the order of firings, so counters,
//! shared variables and conditions at a moment are linear in its vector. A node begins with a
//! moment for each event (first.rt). A fact adds its unknowns, moments and rows behind those that
//! are there (facts.rt): the first use of a guard one moment, a last use the two positions of one
//! step (uses.rt), an order only rows. One vector is below another if each rule has fired at most
//! as often; a row of it that no natural values can break is left out.
//!
//! By the limits of automaton files no number leaves 128 bits, so only want of memory is an error.
#![tactic(auto)]

mod answer;
mod answers;
mod ask;
mod asking;
mod at;
mod count;
mod draft;
mod encoding;
mod ends;
mod facts;
mod first;
mod form;
mod kept;
mod mark;
mod moment;
mod moment_parts;
mod moment_tree;
mod order;
mod part;
mod plain;
mod plan;
mod reading;
mod room;
mod rows;
mod same;
mod silence;
mod start;
mod system;
mod tree;
mod uses;
mod vector;

pub use asking::{candidates, has_later, is_guard, may_be_stuck};
pub use encoding::MomentEncoding;
pub use kept::MomentKept;
pub use mark::NodeMark;
pub use moment::Moment;
pub use moment_parts::{GuardAtEnd, NodeParts, RuleAtEnd};
pub use moment_tree::MomentTree;
pub use plan::{has_guard, is_moving};
pub use room::nodes_stay_small;
