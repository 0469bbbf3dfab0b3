//! The values of a vertex.
#![tactic(auto)]

ghost use Rattle.std.specs.Prelude.{pos, ◌<ℤ◌, ◌≤◌, ◌^◌, length};

use ta_base::List;

/// Values of the unknowns of a system: the number of each, over one positive denominator.
#[derive(Drop)]
pub struct Vertex {
    pub denominator: i128,
    pub numbers: List<i128>,
    pub ghost positive: { pos 0 <ℤ denominator },
    pub ghost few: { length numbers ≤ 2 ^ 32 },
}
