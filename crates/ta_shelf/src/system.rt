//! The calls of the system on files: `opened` makes them, `links` and `held` see to names that are no
//! regular files, `places` tells where names lead, and `tape` logs and counts them.
#![tactic(auto)]

mod access;
mod held;
mod links;
mod opened;
mod places;
mod tape;

pub use access::Access;
pub use held::Held;
pub use links::target_of;
pub use opened::Opened;
pub use places::lead_to_one;
pub use tape::Tape;
