//! The constraint systems of schemas (words), and the laws of schemas, their systems and
//! refutations.
//!
//! The unknowns are the parameters, the start counts and, for each element, how often each allowed
//! rule fires before it (its Counts); a Fall has a Single for each rule besides, of which one is 1.
//! Sums do not depend on the order of firings: a counter or shared variable at an element is its
//! start value plus what all firings so far add. So each condition becomes rows over the unknowns.
//! The unknowns and rows of an element stand behind those of the elements before it (growing.rt).
//!
//! Why these systems miss no run, and why every solution is one: proofs/Reorder.antt and
//! proofs/Realize.antt. By the limits of automaton files no number of a row leaves 128 bits.
//!
//! Also the place in a tree of refutations that is read or made in preorder, for the checker and
//! the maker (cursor.rt). No tree is ever in memory. What is kept is the node that comes next, and
//! for each open node above it a frame: what it asks or splits, and which child is being read.
//! Children are not listed: the answer of a number is computed when its turn comes
//! (`Tree::answer`). So memory grows with the depth of a tree and not with its size.
//!
//! Contracts speak of the list of nodes that are left (`Within`): what a node leaves comes in its
//! place, and where nothing is left the tree ends. `Tree` is what a search has to say for that: its
//! starts, what a node may ask, the answers, and the system of a node. Schemas (ta_rest) and
//! moments (ta_moment_tree) are such trees.
//!
//! Source: POPL 2017, schemas and reordering; start sets and joint falls are this project's.
#![tactic(auto)]

mod ask;
mod count;
mod counters;
mod cursor;
mod cursor_laws;
mod cursor_place;
mod draft;
mod elements;
mod encoded;
mod ending;
mod frames;
mod growing;
mod laws;
mod line;
mod meaning;
mod named;
mod opening;
mod origin;
mod place;
mod places;
mod rows;
mod sample;
mod sharing;
mod tree;
mod unknowns;
mod word;

pub use ask::{Ask, Inner, ask_of};
pub use count::{start_count, unknown_count};
pub use cursor::{Cursor, Frame};
pub use cursor_laws::begins_within;
pub use cursor_place::Place;
pub use encoded::{Encoded, Solution, encode};
pub use ending::WordEnd;
pub use growing::{Encoding, Grown, Mark};
pub use laws::{
    proofs_leave_no_solution, proofs_read_in_order, proofs_show_safety, runs_reorder,
    solutions_become_runs,
};
pub use meaning::{Bound, Meaning, Side};
pub use named::{Named, named_rows};
pub use opening::encode_start;
pub use place::{change_of, first_location, place_coefficient};
pub use sample::{encode_sample, samples_are_real};
pub use tree::{Tree, Written};
