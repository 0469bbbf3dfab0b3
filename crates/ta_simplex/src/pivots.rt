//! The loop of Bland's rule: pivots until no basic variable is negative, or none can enter.
#![tactic(auto)]

ghost use Rattle.std.specs.Prelude.{◌≡◌, ◌++◌, ◌<◌, ◌^◌, ℕ, List, IfOk, IfErr, length, map};
ghost use Rattle.ta_dense.specs.Slack.{slack_tableau};
ghost use Rattle.ta_dense.specs.Kept.{KeptPivot};
ghost use Rattle.ta_simplex.specs.Follows.{Follows, AddsPivots};
ghost use Rattle.ta_simplex.specs.Stops.{RuleStopsAt};
ghost use Rattle.ta_simplex.specs.Ends.{IsSolveFault};

use crate::fault::SolveFault;
use std::alloc::Global;
use ta_dense::{Dictionary, PivotFault};
use ta_linear::System;

/// A dictionary at which the rule ends, and the row for which nothing can enter.
#[derive(Drop)]
pub(crate) struct Stopped<D: Dictionary> {
    pub(crate) dictionary: D,
    pub(crate) row: Option<u32>,
}

// Pivots on until nothing can leave or enter, from a dictionary to which the kept pivots led, and
// keeps each pivot.
pub(crate) fn run<D: Dictionary>(
    alloc: Global,
    system: &System,
    first: D,
    kept: &mut Vec<D::Kept>,
) -> Result<Stopped<D>, SolveFault>
    requires { Follows (slack_tableau system.now) (map D.pivot_of kept.old.items) (length kept.old.items) (D.tableau first) }
    ensures ok { IfOk result (λ s. Follows (slack_tableau system.now) (map D.pivot_of kept.new.items) (length kept.new.items) (D.tableau s.dictionary)) }
    ensures stops { IfOk result (λ s. RuleStopsAt (D.tableau s.dictionary) s.row) }
    ensures goes_on { IfOk result (λ s. AddsPivots (map D.pivot_of kept.old.items) (map D.pivot_of kept.new.items)) }
    ensures fault { IfErr result (IsSolveFault system.now) }
{
    let _system = system;
    let mut dictionary = first;
    while let Some(row) = dictionary.leaving() {
        let Some(column) = dictionary.entering(row) else {
            return Ok(Stopped {
                dictionary,
                row: Some(row),
            });
        };
        let pivot = dictionary.keep(alloc, row, column)?;
        kept.push(pivot)?;
        match dictionary.pivot(alloc, row, column) {
            Ok(next) => dictionary = next,
            Err(PivotFault::Overflow { .. }) => return Err(SolveFault::Overflow(kept.len() as u64)),
            Err(PivotFault::Memory) => return Err(SolveFault::Memory),
        }
    }
    Ok(Stopped {
        dictionary,
        row: None,
    })
}
