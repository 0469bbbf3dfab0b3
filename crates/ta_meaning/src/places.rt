//! The names of the places of a file.
#![tactic(auto)]

ghost use Rattle.std.specs.Prelude.{◌+◌, ◌≤◌, length};
ghost use Rattle.ta_base.specs.Lists.{Distinct, Distinct-prop};

use crate::names::NameList;

/// The names of the places: parameters, then shared variables, then locations; how many parameters
/// and shared variables there are.
#[derive(Drop)]
pub struct Places {
    pub names: NameList,
    pub parameters: u32,
    pub shared: u32,
    pub ghost within: { parameters + shared ≤ length names },
    pub ghost few: { length names ≤ 224 },
    pub ghost few_locations: { length names ≤ parameters + shared + 128 },
    pub ghost few_parameters: { parameters ≤ 32 },
    pub ghost few_shared: { shared ≤ 64 },
    pub ghost distinct: { Distinct names } by { Distinct-prop names },
}
