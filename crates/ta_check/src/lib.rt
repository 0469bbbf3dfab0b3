//! The checker of certificates: what it accepts is proved, whoever wrote it.
//!
//! It reads a certificate line by line and shares no solving code with the maker. From the
//! automaton alone it computes which node comes next, the children of a node and the rows of its
//! system, so no schema and no answer can be left out. A leaf is accepted if the sum of its rows
//! has no positive coefficient and a negative constant. Behind the last line of a proof nothing is
//! left of the pattern's search, so the pattern occurs in no run (proofs/Accepting.antt, which also
//! says why every certificate is accepted).
//!
//! Memory: the unfinished line, and one branch of the tree with its rows. Time: for a leaf, the
//! rows that its node does not share with the leaf before, and the rows that it names.
#![tactic(auto)]

mod accepted;
mod checker;
mod checking;
mod judging;
mod laws;
mod leaf;
mod position;
mod proving;
mod reading;

pub use accepted::Accepted;
pub use checker::Checker;
pub use checking::{check, rest_check, rest_check_silently};
pub use laws::{certificates_name_one_list, certificates_show, claims_hold};
