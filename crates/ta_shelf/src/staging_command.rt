//! Commands that stage their output while they judge.
#![tactic(auto)]

use crate::Shelf;
use crate::answer::{Outputs, Refusal};
use crate::staged_answer::StagedAnswer;
use std::alloc::Global;
use std::thread::Threads;

/// A command, with its words read, whose output is staged while it judges, part by part.
pub trait StagingCommand {
    ghost use Rattle.std.specs.Prelude.{◌≡◌};
    ghost use Rattle.ta_shelf.specs.Commands.{Meaning};
    ghost use Rattle.ta_shelf.specs.Ends.{ShelfState};
    ghost use Rattle.ta_shelf.specs.Puts.{output_names};
    ghost use Rattle.ta_shelf.specs.Staging.{SaysAndStages};
    ghost use denote.Param.Send.{IsSync};

    // what it says
    ghost meaning: { Self → Meaning };

    /// The names of the files that it may put on the shelf.
    fn outputs(&self) -> Outputs<'_>
        ensures { output_names result ≡ (meaning self.now).puts };

    /// Reads what it needs, stages its output, and answers. It puts nothing in its place.
    fn judge<R: Threads + Sync, S: Shelf>(
        &self,
        rt: &R,
        alloc: Global,
        shelf: &mut S,
    ) -> Result<StagedAnswer<'_, S::Stage>, Refusal<'_>>
        requires sync { IsSync R.row }
        ensures says { SaysAndStages (meaning self.now) S.stage_name S.stage_bytes result
            (record { files = S.files shelf.old; calls = S.calls shelf.old; faults = S.faults shelf.old })
            (record { files = S.files shelf.new; calls = S.calls shelf.new; faults = S.faults shelf.new }) }
        ensures kept { S.files shelf.new ≡ S.files shelf.old };
}
