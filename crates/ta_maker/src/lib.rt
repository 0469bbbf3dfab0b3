//! A family of test automata, of which one knows how many nodes the walk visits.
#![tactic(auto)]

mod family;
mod fault;
mod laws;
mod names;
mod sums;

pub use family::make_family;
pub use fault::MakerFault;
pub use laws::family_is_flawless;
