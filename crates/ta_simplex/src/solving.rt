//! Solving a system, from its slacks or from a dictionary of a shorter one.
#![tactic(auto)]

ghost use Rattle.std.specs.Prelude.{◌≡◌, ◌<◌, ◌^◌, IfOk, IfErr, length, map};
ghost use Rattle.ta_dense.specs.Slack.{slack_tableau, variables};
ghost use Rattle.ta_simplex.specs.Ends.{IsEnd, IsSolveFault};
ghost use Rattle.ta_simplex.specs.Follows.{Follows, AddsPivots};
ghost use Rattle.ta_simplex.specs.Stops.{RuleStopsAt};

use crate::End;
use crate::fault::SolveFault;
use crate::multipliers::multipliers_of;
use crate::pivots::{Stopped, run};
use crate::vertex::vertex_of;
use std::alloc::{AllocError, Global};
use ta_dense::Dictionary;
use ta_linear::System;

/// What a system came to, and the dictionary at which its run ended.
#[derive(Drop)]
pub struct Ended<D: Dictionary> {
    pub end: End,
    pub dictionary: D,
}

/// Solves a system. It begins with every slack basic. While a basic variable is negative, the
/// least such variable leaves, and the least that can enters; where none can, the system is
/// refuted. It returns for every system.
pub fn solve<D: Dictionary>(alloc: Global, system: &System) -> Result<End, SolveFault>
    requires { variables system.now < 2 ^ 32 }
    ensures ok { IfOk result (IsEnd system.now) }
    ensures fault { IfErr result (IsSolveFault system.now) }
{
    let mut kept = Vec::new(alloc);
    let first: D = D::from_system(alloc, system)?;
    let ended = resume(alloc, system, first, &mut kept)?;
    Ok(ended.end)
}

/// Solves a system from a dictionary to which the first pivots of its run led, which are these. It
/// comes to the end to which `solve` comes, and the number of a pivot that leaves the range is
/// counted from the slacks. The pivots that it makes are kept behind the others.
pub fn resume<D: Dictionary>(
    alloc: Global,
    system: &System,
    first: D,
    kept: &mut Vec<D::Kept>,
) -> Result<Ended<D>, SolveFault>
    requires room { variables system.now < 2 ^ 32 }
    requires follows { Follows (slack_tableau system.now) (map D.pivot_of kept.old.items) (length kept.old.items) (D.tableau first) }
    ensures ok { IfOk result (λ ended. IsEnd system.now ended.end) }
    ensures follows { IfOk result (λ ended. Follows (slack_tableau system.now) (map D.pivot_of kept.new.items) (length kept.new.items) (D.tableau ended.dictionary)) }
    ensures goes_on { IfOk result (λ ended. AddsPivots (map D.pivot_of kept.old.items) (map D.pivot_of kept.new.items)) }
    ensures fault { IfErr result (IsSolveFault system.now) }
{
    let stopped = run(alloc, system, first, kept)?;
    let end = end_of(alloc, system, &stopped, kept.as_slice())?;
    Ok(Ended {
        end,
        dictionary: stopped.dictionary,
    })
}

// The end that a stopped dictionary shows.
fn end_of<D: Dictionary>(
    alloc: Global,
    system: &System,
    stopped: &Stopped<D>,
    kept: &[D::Kept],
) -> Result<End, AllocError>
    requires room { variables system.now < 2 ^ 32 }
    requires follows { Follows (slack_tableau system.now) (map D.pivot_of kept.now) (length kept.now) (D.tableau stopped.now.dictionary) }
    requires stops { RuleStopsAt (D.tableau stopped.now.dictionary) stopped.now.row }
    ensures { IfOk result (IsEnd system.now) }
{
    let _kept = kept;
    match stopped.row {
        Some(row) => Ok(End::Refuted(multipliers_of(alloc, system, &stopped.dictionary, row)?)),
        None => Ok(End::Vertex(vertex_of(alloc, system, &stopped.dictionary)?)),
    }
}
