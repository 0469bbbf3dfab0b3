//! What the run of a node is made from.
#![tactic(auto)]

ghost use Rattle.std.specs.Prelude.{◌≡◌};

use crate::encoding::MomentEncoding;
use crate::moment::Moment;
use ta_encode::Meaning;

impl<'a> MomentEncoding<'a> {
    /// The moments, by number.
    pub fn moments(&self) -> &[Moment]
        ensures { result.now ≡ self.now.draft.moments.items }
    {
        self.draft.moments.as_slice()
    }

    /// What the first unknowns stand for: the parameters, and the start counts of the initial
    /// locations that aren't kept empty.
    pub fn starts(&self) -> &[Meaning]
        ensures { result.now ≡ self.now.plan.starts }
    {
        self.plan.starts.as_slice()
    }

    /// The moving rules, in order.
    pub fn moving(&self) -> &[u32]
        ensures { result.now ≡ self.now.plan.moving.items }
    {
        self.plan.moving.as_slice()
    }
}
