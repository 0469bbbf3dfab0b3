//! Commands.
#![tactic(auto)]

use crate::Shelf;
use crate::answer::{Answer, Outputs, Refusal};
use std::alloc::Global;
use std::thread::Threads;

/// A command, with its words read.
pub trait Command {
    ghost use Rattle.std.specs.Prelude.{◌≡◌};
    ghost use Rattle.ta_shelf.specs.Commands.{Meaning, Says};
    ghost use Rattle.ta_shelf.specs.Puts.{output_names};
    ghost use Rattle.ta_shelf.specs.Reading.{ReadCause};
    ghost use Rattle.ta_shelf.specs.Calls.{Grew};
    ghost use denote.Param.Send.{IsSync};

    // what it says
    ghost meaning: { Self → Meaning };

    /// The names of the files that it may put on the shelf.
    fn outputs(&self) -> Outputs<'_>
        ensures { output_names result ≡ (meaning self.now).puts };

    /// Reads what it needs, and answers. It puts nothing on the shelf.
    fn judge<R: Threads + Sync, S: Shelf>(
        &self,
        rt: &R,
        alloc: Global,
        shelf: &mut S,
    ) -> Result<Answer, Refusal<'_>>
        requires sync { IsSync R.row }
        ensures says { Grew (Says (meaning self.now) (S.files shelf.old) result) (S.calls shelf.old) (S.calls shelf.new) }
        ensures cause { ReadCause result (S.faults shelf.old) (S.faults shelf.new) }
        ensures kept { S.files shelf.new ≡ S.files shelf.old };
}
