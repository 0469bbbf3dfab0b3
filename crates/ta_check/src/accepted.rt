//! What a certificate proves.
#![tactic(auto)]

use ta_base::List;

/// The numbers of the patterns that a certificate proves, in its order.
#[derive(Drop)]
pub struct Accepted {
    pub patterns: List<u32>,
}
