//! Commands that read FILE and a second file that belongs to it.
#![tactic(auto)]

ghost use Rattle.std.specs.Prelude.{◌≡◌, map, option_map};
ghost use Rattle.ta_program.specs.Taken.{names_seen};
ghost use Rattle.ta_program.specs.Values.{two_names};

use crate::request::Request;
use crate::values::{TwoNames, two_names};
use std::alloc::Global;
use std::marker::PhantomData;
use std::thread::Threads;
use ta_shelf::{Answer, Command, Outputs, Refusal, Shelf};

/// What is done with FILE and a second file that belongs to it.
pub(crate) trait OfTwoFiles: Drop + Sized {
    ghost use Rattle.std.specs.Prelude.{◌≡◌, []};
    ghost use Rattle.ta_shelf.specs.Calls.{Grew};
    ghost use Rattle.ta_shelf.specs.Put.{Told};
    ghost use Rattle.ta_shelf.specs.Commands.{Decides, Meaning, Says};
    ghost use Rattle.ta_shelf.specs.Reading.{ReadCause};
    ghost use Rattle.ta_program.specs.Asked.{PassesWhere};
    ghost use Rattle.ta_program.specs.Taken.{names_seen};
    ghost use Rattle.ta_program.specs.Values.{TwoNames as Names};

    // whether FILE, by its name and the limits that are meant, is legal in told files
    ghost legal: { Names → Told → Type 0 };

    // what it says, by the names of FILE and of the second file
    ghost stated: { Names → Meaning };

    /// Reads FILE, then the second file, and answers.
    fn judge_files<'a, S: Shelf>(
        alloc: Global,
        shelf: &mut S,
        names: TwoNames<'a>,
    ) -> Result<Answer, Refusal<'a>>
        ensures says { Grew (Says (stated (names_seen names.entry)) (S.files shelf.old) result) (S.calls shelf.old) (S.calls shelf.new) }
        ensures cause { ReadCause result (S.faults shelf.old) (S.faults shelf.new) }
        ensures kept { S.files shelf.new ≡ S.files shelf.old };

    /// The laws that told files leave it one answer, that a legal FILE passes, and that it has no
    /// output; the call does nothing.
    fn is_determined()
        ensures decides { (names : Names) → Decides (stated names) }
        ensures passes { (names : Names) → PassesWhere (legal names) (stated names) }
        ensures no_output { (names : Names) → (stated names).puts ≡ [] };
}

/// The names of two files, and what is to be done with them.
#[derive(Drop)]
pub(crate) struct TwoFiles<'a, C: OfTwoFiles> {
    names: TwoNames<'a>,
    command: PhantomData<C>,
}

impl<'a, C: OfTwoFiles> Request<'a> for TwoFiles<'a, C> {
    ghost use Rattle.ta_program.specs.Asked.{ask_where};
    ghost use Rattle.ta_program.specs.Values.{two_names};

    ghost asked = { λ words. ask_where C.legal C.stated (two_names words) };

    fn read(words: &[&'a str]) -> Option<TwoFiles<'a, C>> {
        C::is_determined();
        read_two_files(words)
    }
}

impl<'a, C: OfTwoFiles> Command for TwoFiles<'a, C> {
    ghost use Rattle.ta_program.specs.Taken.{names_seen};

    ghost meaning = { λ command. C.stated (names_seen command.names) };

    fn outputs(&self) -> Outputs<'_> {
        C::is_determined();
        Outputs::none()
    }

    fn judge<R: Threads + Sync, S: Shelf>(
        &self,
        rt: &R,
        alloc: Global,
        shelf: &mut S,
    ) -> Result<Answer, Refusal<'_>> {
        let _ = rt;
        C::judge_files(alloc, shelf, self.names)
    }
}

/// Reads the words of a command of two files: their names, and `--wide` or no option.
fn read_two_files<'a, C: OfTwoFiles>(words: &[&'a str]) -> Option<TwoFiles<'a, C>>
    ensures { option_map (λ command. names_seen command.names) result ≡ two_names (map (λ w. w.now) words.now) }
{
    let names = two_names(words)?;
    Some(TwoFiles {
        names,
        command: PhantomData,
    })
}
