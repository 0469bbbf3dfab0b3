//! The run of Bland's rule on a revised dictionary, as long as its bounds suffice.
#![tactic(auto)]

ghost use Rattle.std.specs.Prelude.{ℕ, ◌<◌, ◌^◌, IfOk, IfSome};
ghost use Rattle.ta_dense.specs.Slack.{variables};
ghost use Rattle.ta_revised.specs.Negative.{FirstHold};
ghost use Rattle.ta_revised.specs.ShortRows.{AreShort};
ghost use Rattle.ta_simplex.specs.RevisedRuns.{Begins, HasRun, IsStep, IsUnderWay};

use crate::End;
use crate::revised_ends::{revised_multipliers, revised_vertex};
use std::alloc::{AllocError, Global};
use ta_linear::System;
use ta_revised::{RevisedDictionary, ShortRows};

/// So many pivots are made before a run is given up. Most runs have some hundred.
const MOST_PIVOTS: usize = 1_000_000;

/// The dictionary with which a run begins. The first rows of the system hold at it, so many.
#[derive(Drop)]
pub struct Beginning {
    pub(crate) dictionary: RevisedDictionary,
    pub(crate) hold: usize,
}

/// What a run came to, the dictionary at which it ended, and how many pivots it made.
#[derive(Drop)]
pub struct Ran {
    pub(crate) end: End,
    pub(crate) dictionary: RevisedDictionary,
    pub(crate) pivots: usize,
}

/// What a step of a run came to.
#[derive(Drop)]
pub(crate) enum Step {
    Pivoted(RevisedDictionary),
    Ended(Ran),
    /// Bounds don't suffice.
    GivenUp,
}

// The next pivot of the rule, or the end. The first rows hold, so many.
fn next_step(
    alloc: Global,
    system: &System,
    rows: &ShortRows,
    dictionary: RevisedDictionary,
    hold: usize,
    pivots: usize,
) -> Result<Step, AllocError>
    requires room { variables system.now < 2 ^ 32 }
    requires rows { AreShort rows.now system.now.rows }
    requires under_way { IsUnderWay system.now dictionary }
    requires hold { FirstHold system.now dictionary hold }
    ensures { IfOk result (IsStep system.now) }
{
    let Some(scale) = dictionary.scale() else {
        return Ok(Step::GivenUp);
    };
    let Some(variable) = dictionary.leaving(alloc, system, rows, scale, hold)? else {
        let values = revised_vertex(alloc, system, &dictionary)?;
        return Ok(Step::Ended(Ran {
            end: End::Vertex(values),
            dictionary,
            pivots,
        }));
    };
    let Some(chosen) = dictionary.row(alloc, system, variable, scale)? else {
        return Ok(Step::GivenUp);
    };
    let Some(column) = dictionary.entering(&chosen) else {
        let multipliers = revised_multipliers(alloc, system, &dictionary, &chosen)?;
        return Ok(Step::Ended(Ran {
            end: End::Refuted(multipliers),
            dictionary,
            pivots,
        }));
    };
    match dictionary.pivot(alloc, chosen, column)? {
        Some(next) => Ok(Step::Pivoted(next)),
        None => Ok(Step::GivenUp),
    }
}

/// Pivots on until nothing can leave or enter, where the bounds of the dictionary suffice. These are
/// the system's rows in short numbers.
pub(crate) fn run_revised(
    alloc: Global,
    system: &System,
    rows: &ShortRows,
    first: Beginning,
) -> Result<Option<Ran>, AllocError>
    requires room { variables system.now < 2 ^ 32 }
    requires rows { AreShort rows.now system.now.rows }
    requires begins { Begins system.now first }
    ensures { IfOk result (λ o. IfSome o (HasRun system.now)) }
{
    let Beginning {
        mut dictionary,
        mut hold,
    } = first;
    for pivots in 0..MOST_PIVOTS {
        match next_step(alloc, system, rows, dictionary, hold, pivots)? {
            Step::Pivoted(next) => {
                dictionary = next;
                hold = 0;
            }
            Step::Ended(ran) => return Ok(Some(ran)),
            Step::GivenUp => return Ok(None),
        }
    }
    Ok(None)
}
