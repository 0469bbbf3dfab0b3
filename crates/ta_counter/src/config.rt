//! Configurations: at most 224 numbers in an `ArrayVec`, so following a run takes no memory.
#![tactic(auto)]

ghost use Rattle.std.specs.List.{AllByRecursion, AllByRecursion-prop};
ghost use Rattle.ta_counter.specs.Values.{Value, Value-prop};

use arrayvec::ArrayVec;

/// A value for each place: an automaton has at most 32 parameters, 64 shared variables and
/// 128 locations.
pub(crate) type Places = ArrayVec<i128, 224>;

/// The values of the places: parameters, then shared variables, then counters of the locations.
#[derive(Drop)]
pub struct Config {
    pub(crate) values: Places,
    pub ghost natural: { AllByRecursion Value values.items } by { AllByRecursion-prop Value Value-prop values.items },
}

impl Config {
    ghost use Rattle.std.specs.Prelude.{◌≡◌};

    /// The values by place number.
    pub fn values(&self) -> &[i128]
        ensures { result.now ≡ self.now.values.items }
    {
        self.values.as_slice()
    }
}
