//! Templates and their holes.
#![tactic(auto)]

ghost use Rattle.std.specs.Prelude.{◌≡◌, None};
ghost use Rattle.ta_search.specs.Holes.{AreHoles, AreHoles-prop, unknown_place, unknown-prop};

use ta_base::{List, Text};

/// A hole for a coefficient: its name, and the values that are tried, from the lower to the upper.
#[derive(Drop)]
pub struct Hole {
    pub name: Text,
    pub low: u32,
    pub high: u32,
}

/// A template: at most four holes of different names with at most 10,000 choices of values, and the
/// bytes of a file, in which the name of a hole stands behind each `$`.
#[derive(Drop)]
pub struct Template {
    pub holes: List<Hole>,
    pub body: List<u8>,
    pub ghost legal: { AreHoles holes } by { AreHoles-prop holes },
    pub ghost known: { unknown_place holes body ≡ None } by { unknown-prop holes body },
}
