//! The numbers of the picked patterns of a file.
#![tactic(auto)]

ghost use Rattle.std.specs.Prelude.{◌+◌, ◌≡◌, length};
ghost use Rattle.ta_report.specs.Picked.{first_picked, picked};

use ta_automaton::File;
use ta_report::Pick;

/// The numbers of the picked patterns of a file, from the first to before the second: none where no
/// pattern has the number that is picked.
pub fn picked_range(file: &File, pick: Pick) -> (u32, u32)
    ensures first { result.0 ≡ first_picked pick }
    ensures end { result.1 ≡ first_picked pick + length (picked pick file.now.patterns) }
{
    let count = file.patterns.as_slice().len() as u32;
    match pick {
        Pick::All => (0, count),
        Pick::One(number) => {
            if number < count {
                return (number, number + 1);
            }
            (number, number)
        }
    }
}
