//! Putting the files and the text of an answer.
//!
//! Each file is made beside what its name holds. Then the text is written, and then each comes into its
//! place, whole. So whatever fails before that leaves every file as it was.
#![tactic(auto)]

ghost use Rattle.std.specs.List.{concat};
ghost use Rattle.std.specs.Prelude.{◌≡◌, ◌++◌, IfOk, List, OnOk, ℕ};
ghost use Rattle.ta_shelf.specs.Calls.{Event};
ghost use Rattle.ta_shelf.specs.Put.{PutFailsOnlyFaulted};
ghost use Rattle.ta_shelf.specs.Stage.{answer_of};
ghost use Rattle.ta_shelf.specs.Ends.{SinkState};
ghost use Rattle.ta_shelf.specs.OutputCalls.{Changed};
ghost use Rattle.ta_shelf.specs.Puts.{content_bytes, put_bytes};
ghost use Rattle.ta_shelf.specs.Putting.{AddsOr, PublishesOne, Settled, SettledCause, StagesOr, WritesText};
ghost use Rattle.ta_shelf.specs.Staging.{output_puts, OutputNamed, OutputStaged};

use crate::answer::{Content, Put};
use crate::staged_answer::StagedOutput;
use crate::{PutFault, Shelf, Sink, write_whole};
use ta_base::Text;

/// Why the files of an answer don't all stand, or why its text isn't written.
#[derive(Clone, Copy, Drop)]
pub(crate) enum Halt<'a> {
    /// The output failed.
    Unwritten,
    /// The shelf failed at making the file of a name, or at putting it in its place.
    Unput { name: &'a str },
    /// There was no memory.
    Memory,
}

/// Makes files, writes a text, and puts the files in their places, the last one first.
///
/// Where a file can't be made, the text is written all the same.
pub(crate) fn put_all<'a, S: Shelf, O: Sink>(
    shelf: &mut S,
    puts: &'a [Put],
    out: &mut O,
    text: &str,
) -> Result<(), Halt<'a>>
    ensures settled { Changed (Settled puts.now text.now result (S.files shelf.old) (S.files shelf.new)
        (record { written = O.written out.old; faults = O.faults out.old; stalls = O.stalls out.old })
        (record { written = O.written out.new; faults = O.faults out.new; stalls = O.stalls out.new })) (S.calls shelf.old) (S.calls shelf.new) }
    ensures cause { SettledCause result (S.faults shelf.old) (S.faults shelf.new) }
{
    let Some((put, later)) = puts.split_first() else {
        return write_text(out, text);
    };
    match stage_put(shelf, put) {
        Ok(stage) => match put_all(shelf, later, out, text) {
            Ok(()) => publish(shelf, stage, put.name.as_str()),
            Err(halt) => {
                shelf.abandon(stage);
                Err(halt)
            }
        },
        Err(PutFault::Failed) => {
            let _ = write_text(out, text);
            Err(Halt::Unput {
                name: put.name.as_str(),
            })
        }
        Err(PutFault::Memory) => Err(Halt::Memory),
    }
}

/// Writes a text, and puts an output that is staged already in its place.
///
/// Where the output couldn't be staged, the text is written all the same.
pub(crate) fn put_staged<'a, S: Shelf, O: Sink>(
    shelf: &mut S,
    output: StagedOutput<'a, S::Stage>,
    out: &mut O,
    text: &str,
) -> Result<(), Halt<'a>>
    requires { OutputNamed S.stage_name output }
    ensures settled { (lost : List ℕ) (first : List Event) (faults : ℕ) → Changed (OutputStaged S.stage_name S.stage_bytes output.entry faults (S.faults shelf.old)) first (S.calls shelf.old)
        → Changed (Settled (output_puts S.stage_bytes output.entry lost) text.now result (S.files shelf.old) (S.files shelf.new)
        (record { written = O.written out.old; faults = O.faults out.old; stalls = O.stalls out.old })
        (record { written = O.written out.new; faults = O.faults out.new; stalls = O.stalls out.new })) first (S.calls shelf.new) }
    ensures cause { (first : List Event) (faults : ℕ) → Changed (OutputStaged S.stage_name S.stage_bytes output.entry faults (S.faults shelf.old)) first (S.calls shelf.old) → SettledCause result faults (S.faults shelf.new) }
{
    match output {
        StagedOutput::Unasked => write_text(out, text),
        StagedOutput::Staged { name, stage } => match write_text(out, text) {
            Ok(()) => publish(shelf, stage, name),
            Err(halt) => {
                shelf.abandon(stage);
                Err(halt)
            }
        },
        StagedOutput::Lost { name } => {
            let _ = write_text(out, text);
            Err(Halt::Unput { name })
        }
    }
}

/// Writes a text.
fn write_text<'a, O: Sink>(out: &mut O, text: &str) -> Result<(), Halt<'a>>
    ensures { WritesText result text.now
        (record { written = O.written out.old; faults = O.faults out.old; stalls = O.stalls out.old })
        (record { written = O.written out.new; faults = O.faults out.new; stalls = O.stalls out.new }) }
{
    match write_whole(out, text.as_bytes()) {
        Ok(()) => Ok(()),
        Err(_) => Err(Halt::Unwritten),
    }
}

/// Puts a file in the place of its name.
fn publish<'a, S: Shelf>(shelf: &mut S, stage: S::Stage, name: &'a str) -> Result<(), Halt<'a>>
    requires { S.stage_name stage ≡ name.now }
    ensures published { Changed (PublishesOne result name.now (S.stage_bytes stage) (S.files shelf.old) (S.files shelf.new)) (S.calls shelf.old) (S.calls shelf.new) }
    ensures cause { SettledCause result (S.faults shelf.old) (S.faults shelf.new) }
{
    match shelf.publish(stage) {
        Ok(()) => Ok(()),
        Err(PutFault::Failed) => Err(Halt::Unput { name }),
        Err(PutFault::Memory) => Err(Halt::Memory),
    }
}

/// Makes a file, which isn't in the place of its name yet.
fn stage_put<S: Shelf>(shelf: &mut S, put: &Put) -> Result<S::Stage, PutFault>
    ensures named { IfOk result (λ stage. S.stage_name stage ≡ put.now.name) }
    ensures bytes { IfOk result (λ stage. S.stage_bytes stage ≡ put_bytes put.now) }
    ensures log { Changed (StagesOr result put.now.name (put_bytes put.now)) (S.calls shelf.old) (S.calls shelf.new) }
    ensures cause { PutFailsOnlyFaulted (answer_of result) (S.faults shelf.old) (S.faults shelf.new) }
    ensures kept { S.files shelf.new ≡ S.files shelf.old }
{
    let mut stage = match shelf.begin(put.name.as_str()) {
        Ok(stage) => stage,
        Err(fault) => return Err(fault),
    };
    match fill(shelf, &mut stage, &put.content) {
        Ok(()) => Ok(stage),
        Err(fault) => {
            shelf.abandon(stage);
            Err(fault)
        }
    }
}

/// Adds a content to a file in the making.
fn fill<S: Shelf>(shelf: &mut S, stage: &mut S::Stage, content: &Content) -> Result<(), PutFault>
    ensures named { S.stage_name stage.new ≡ S.stage_name stage.old }
    ensures bytes { OnOk result (S.stage_bytes stage.new ≡ S.stage_bytes stage.old ++ content_bytes content.now) }
    ensures log { Changed (AddsOr result (S.stage_name stage.old) (content_bytes content.now)) (S.calls shelf.old) (S.calls shelf.new) }
    ensures cause { PutFailsOnlyFaulted result (S.faults shelf.old) (S.faults shelf.new) }
    ensures kept { S.files shelf.new ≡ S.files shelf.old }
{
    match content {
        Content::Pieces(pieces) => add_pieces(shelf, stage, pieces.as_slice()),
        Content::Bytes(bytes) => add_bytes(shelf, stage, bytes.as_slice()),
    }
}

/// Adds texts to a file in the making, one behind the other.
fn add_pieces<S: Shelf>(
    shelf: &mut S,
    stage: &mut S::Stage,
    pieces: &[Text],
) -> Result<(), PutFault>
    ensures named { S.stage_name stage.new ≡ S.stage_name stage.old }
    ensures bytes { OnOk result (S.stage_bytes stage.new ≡ S.stage_bytes stage.old ++ concat pieces.now) }
    ensures log { Changed (AddsOr result (S.stage_name stage.old) (concat pieces.now)) (S.calls shelf.old) (S.calls shelf.new) }
    ensures cause { PutFailsOnlyFaulted result (S.faults shelf.old) (S.faults shelf.new) }
    ensures kept { S.files shelf.new ≡ S.files shelf.old }
{
    for piece in pieces {
        match shelf.add(stage, piece.as_str().as_bytes()) {
            Ok(()) => {}
            Err(fault) => return Err(fault),
        }
    }
    Ok(())
}

/// Adds bytes to a file in the making.
fn add_bytes<S: Shelf>(shelf: &mut S, stage: &mut S::Stage, bytes: &[u8]) -> Result<(), PutFault>
    ensures named { S.stage_name stage.new ≡ S.stage_name stage.old }
    ensures bytes { OnOk result (S.stage_bytes stage.new ≡ S.stage_bytes stage.old ++ bytes.now) }
    ensures log { Changed (AddsOr result (S.stage_name stage.old) bytes.now) (S.calls shelf.old) (S.calls shelf.new) }
    ensures cause { PutFailsOnlyFaulted result (S.faults shelf.old) (S.faults shelf.new) }
    ensures kept { S.files shelf.new ≡ S.files shelf.old }
{
    match shelf.add(stage, bytes) {
        Ok(()) => Ok(()),
        Err(fault) => Err(fault),
    }
}
