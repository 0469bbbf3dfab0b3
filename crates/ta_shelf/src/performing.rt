//! Doing a command.
#![tactic(auto)]

ghost use Rattle.std.specs.Prelude.{List, ℕ};
ghost use Rattle.ta_shelf.specs.Calls.{Event};
ghost use Rattle.ta_shelf.specs.Ends.{Performs, state};
ghost use Rattle.ta_shelf.specs.Finishing.{FinishedBy};
ghost use Rattle.ta_shelf.specs.OutputCalls.{Changed};
ghost use Rattle.ta_shelf.specs.Staging.{answer_seen, OutputNamed, OutputStaged};

use crate::answer::Answer;
use crate::beginning::try_outputs;
use crate::command::Command;
use crate::putting::{put_all, put_staged};
use crate::staged_answer::StagedAnswer;
use crate::staging_command::StagingCommand;
use crate::telling::{tell_halt, tell_refusal};
use crate::{Shelf, Sink};
use std::alloc::Global;
use std::thread::Threads;

/// Does a command, and answers the number that the process ends with: that of its answer, once the
/// text is written and the files are put; 3 or 4 where a file hinders; 6 where the shelf or the
/// output failed; and 7 for want of memory.
///
/// The files of its outputs are begun and let go before anything is read. Those of its answer are
/// made beside what their names hold, and come into their places behind the text.
pub fn perform<R: Threads + Sync, C: Command, S: Shelf, O: Sink, E: Sink>(
    rt: &R,
    alloc: Global,
    command: &C,
    shelf: &mut S,
    out: &mut O,
    err: &mut E,
) -> u8
    ensures { Performs (C.meaning command.now) result
        (state (S.files shelf.old) (S.calls shelf.old) (S.faults shelf.old) (O.written out.old) (O.faults out.old) (O.stalls out.old) (E.written err.old) (E.faults err.old) (E.stalls err.old))
        (state (S.files shelf.new) (S.calls shelf.new) (S.faults shelf.new) (O.written out.new) (O.faults out.new) (O.stalls out.new) (E.written err.new) (E.faults err.new) (E.stalls err.new)) }
{
    match try_outputs(shelf, &command.outputs()) {
        Ok(()) => match command.judge(rt, alloc, shelf) {
            Ok(answer) => finish(&answer, shelf, out, err),
            Err(refusal) => tell_refusal(&refusal, err),
        },
        Err(refusal) => tell_refusal(&refusal, err),
    }
}

/// Does a command that stages its output while it judges, in the same way: where the shelf fails at
/// that, the text is written all the same.
pub fn perform_staging<R: Threads + Sync, C: StagingCommand, S: Shelf, O: Sink, E: Sink>(
    rt: &R,
    alloc: Global,
    command: &C,
    shelf: &mut S,
    out: &mut O,
    err: &mut E,
) -> u8
    ensures { Performs (C.meaning command.now) result
        (state (S.files shelf.old) (S.calls shelf.old) (S.faults shelf.old) (O.written out.old) (O.faults out.old) (O.stalls out.old) (E.written err.old) (E.faults err.old) (E.stalls err.old))
        (state (S.files shelf.new) (S.calls shelf.new) (S.faults shelf.new) (O.written out.new) (O.faults out.new) (O.stalls out.new) (E.written err.new) (E.faults err.new) (E.stalls err.new)) }
{
    match try_outputs(shelf, &command.outputs()) {
        Ok(()) => match command.judge(rt, alloc, shelf) {
            Ok(answer) => finish_staged(answer, shelf, out, err),
            Err(refusal) => tell_refusal(&refusal, err),
        },
        Err(refusal) => tell_refusal(&refusal, err),
    }
}

/// Puts the files of an answer and writes its text, and answers its number.
fn finish<S: Shelf, O: Sink, E: Sink>(
    answer: &Answer,
    shelf: &mut S,
    out: &mut O,
    err: &mut E,
) -> u8
    ensures { FinishedBy answer.now result
        (state (S.files shelf.old) (S.calls shelf.old) (S.faults shelf.old) (O.written out.old) (O.faults out.old) (O.stalls out.old) (E.written err.old) (E.faults err.old) (E.stalls err.old))
        (state (S.files shelf.new) (S.calls shelf.new) (S.faults shelf.new) (O.written out.new) (O.faults out.new) (O.stalls out.new) (E.written err.new) (E.faults err.new) (E.stalls err.new)) }
{
    match put_all(shelf, answer.puts.as_slice(), out, answer.text.as_str()) {
        Ok(()) => answer.number,
        Err(halt) => tell_halt(&halt, err),
    }
}

/// The same of an answer whose output is staged already.
fn finish_staged<S: Shelf, O: Sink, E: Sink>(
    answer: StagedAnswer<'_, S::Stage>,
    shelf: &mut S,
    out: &mut O,
    err: &mut E,
) -> u8
    requires { OutputNamed S.stage_name answer.output }
    ensures { (lost : List ℕ) (first : List Event) (faults : ℕ) → Changed (OutputStaged S.stage_name S.stage_bytes answer.entry.output faults (S.faults shelf.old)) first (S.calls shelf.old)
        → FinishedBy (answer_seen S.stage_bytes lost answer.entry) result
        (state (S.files shelf.old) first faults (O.written out.old) (O.faults out.old) (O.stalls out.old) (E.written err.old) (E.faults err.old) (E.stalls err.old))
        (state (S.files shelf.new) (S.calls shelf.new) (S.faults shelf.new) (O.written out.new) (O.faults out.new) (O.stalls out.new) (E.written err.new) (E.faults err.new) (E.stalls err.new)) }
{
    let StagedAnswer {
        number,
        text,
        output,
    } = answer;
    match put_staged(shelf, output, out, text.as_str()) {
        Ok(()) => number,
        Err(halt) => tell_halt(&halt, err),
    }
}
