//! What may be spent on a pattern.
#![tactic(auto)]

ghost use Rattle.std.specs.Prelude.{◌≡◌, ◌≤◌, false};
ghost use Rattle.ta_base.specs.declared.limits.TheConstants.{MOST_NODES};

use ta_base::limits::MOST_NODES;

/// What words allow to be spent on each pattern: a number of nodes within the limits, of one tree or
/// the other; and whether FILE is read within the wide limits, which it isn't for the tree of schemas.
#[derive(Drop)]
pub(crate) struct Budget {
    pub given: ta_verdict::Budget,
    pub wide: bool,
    pub ghost some: { 1 ≤ given.nodes },
    pub ghost few: { given.nodes ≤ MOST_NODES },
    pub ghost narrow: { given.lazy ≡ false → wide ≡ false },
}
