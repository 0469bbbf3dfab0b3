//! Pivots that are taken back.

ghost use Rattle.std.specs.Prelude.{◌<◌, ◌^◌};
ghost use Rattle.ta_dense.specs.Slack.{variables};

use crate::beside::{Beside, are_same, pivot_at};
use crate::given::Given;
use ta_dense::{DenseDictionary, Dictionary};
use ta_linear::System;

/// What is left of a pivot in a system that is made and taken back a hundred times: whether the rows are
/// those of the start each time, and how many cells the linked rows hold at the start, after the first
/// time and after the last.
pub fn say_cells(given: &mut Given, system: &System, row: u32, column: u32)
    requires { variables system.now < 2 ^ 32 }
{
    let Some(last) = cells_after(given, system, row, column, 100) else {
        return given.say("no such pivots");
    };
    let start = cells_after(given, system, row, column, 0).unwrap_or(0);
    let first = cells_after(given, system, row, column, 1).unwrap_or(0);
    given.number("", start);
    given.number(" cells, ", first);
    given.number(", ", last);
}

// The cells after so many times.
fn cells_after(
    given: &mut Given,
    system: &System,
    row: u32,
    column: u32,
    times: u32,
) -> Option<usize>
    requires { variables system.now < 2 ^ 32 }
{
    let start = DenseDictionary::from_system(given.alloc, system).ok()?;
    let mut now = Beside::from_system(given.alloc, system).ok();
    for _ in 0..times {
        now = there_and_back(given, &start, now, row, column);
    }
    drop(start);
    let now = now?;
    Some(now.linked().held())
}

// The dictionary after a pivot and the one that takes it back. Says so where the rows are others.
fn there_and_back(
    given: &mut Given,
    start: &DenseDictionary,
    dictionary: Option<Beside>,
    row: u32,
    column: u32,
) -> Option<Beside> {
    let once = pivot_at(given.alloc, dictionary?, row, column).ok()?;
    let back = pivot_at(given.alloc, once, row, column).ok()?;
    if !are_same(start, &back) {
        given.say("other rows\n");
    }
    Some(back)
}
