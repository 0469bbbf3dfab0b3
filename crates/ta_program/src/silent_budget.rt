//! What may be spent on a pattern where runs are to end in a deadlock.
#![tactic(auto)]

ghost use Rattle.std.specs.Prelude.{◌≡◌, false, None};

use crate::budget::Budget;

/// What words allow to be spent on each pattern, and the names that are to be silent: there are none
/// by words, without moments on demand.
#[derive(Drop)]
pub(crate) struct SilentBudget<'a> {
    pub budget: Budget,
    pub names: Option<&'a str>,
    pub ghost quiet: { budget.given.lazy ≡ false → names ≡ None },
}
