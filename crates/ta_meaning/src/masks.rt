//! Lists of names as masks.
#![tactic(auto)]

ghost use Rattle.std.specs.Prelude.{◌-◌, ◌<◌, ◌≤◌, ◌↔◌, [], length, map, slice_range, IsTrue, IsBitSet};
ghost use Rattle.ta_syntax.specs.PlainTrees.{plain_name};
ghost use Rattle.ta_base.specs.Lists.{Distinct};
ghost use Rattle.ta_meaning.specs.Faults.{Judges, listed_faults};
ghost use Rattle.ta_meaning.specs.Inside.Listed.{ListedMask};

use crate::names::NameList;
use ta_base::masks::contains;
use ta_syntax::{FileFault, Spelled};

/// The mask of the names that are listed, among those from one number on and below another: bit i
/// for the i-th of these. F3 where a name was listed before, F4 where it isn't declared, F5 where
/// it is another's.
pub fn listed_mask(
    names: &NameList,
    from: u32,
    to: u32,
    listed: &[Spelled],
) -> Result<u128, FileFault>
    requires order { from ≤ to }
    requires within { to ≤ length names.now }
    requires few { to - from ≤ 128 }
    requires distinct { Distinct names.now }
    ensures { Judges (listed_faults names.now (slice_range names.now from to) [] listed.now) (ListedMask (slice_range names.now from to) (map plain_name listed.now)) result }
{
    let mut mask: u128 = 0;
    for name in listed {
        let number = names.number_in(from, to, name)?;
        if contains(mask, number) {
            return Err(FileFault::Duplicate(name.at));
        }
        mask |= 1 << number;
    }
    Ok(mask)
}
