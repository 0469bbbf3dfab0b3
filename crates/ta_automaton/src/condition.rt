//! Conditions on places.
#![tactic(auto)]

ghost use Rattle.std.specs.Prelude.{◌≤◌, length};

use ta_base::List;
use ta_linear::Row;

/// One row over place numbers, or two for `==`; they all have to hold.
#[derive(Drop)]
pub struct Comparison {
    pub rows: List<Row>,
    pub ghost some: { 1 ≤ length rows },
    pub ghost most: { length rows ≤ 2 },
}

/// At most 16 comparisons, which all have to hold; it may have none.
#[derive(Drop)]
pub struct Condition {
    pub comparisons: List<Comparison>,
    pub ghost limit: { length comparisons ≤ 16 },
}
