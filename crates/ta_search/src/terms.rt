//! What the vectors of a template are tried by.

use ta_base::limits::Limits;
use ta_verdict::Budget;

/// What may be spent on each pattern of a filled text, and the limits within which it is read.
#[derive(Clone, Copy)]
pub struct Terms {
    pub budget: Budget,
    pub limits: Limits,
}
