//! Reading the automaton file of a command, and comparing its outputs with it.
#![tactic(auto)]

ghost use Rattle.std.specs.Prelude.{◌≡◌, ◌≤◌, IfOk, length};
ghost use Rattle.ta_automaton.specs.Narrow.{IsNarrow, IsWithin};
ghost use Rattle.ta_base.specs.LimitRows.{narrow};
ghost use Rattle.ta_shelf.specs.Calls.{Grew};
ghost use Rattle.ta_shelf.specs.Reading.{ReadCause};
ghost use Rattle.ta_shelf.specs.Puts.{output_names};
ghost use Rattle.ta_shelf.specs.Sparing.{SparedStage};
ghost use Rattle.ta_shelf.specs.Stages.{MeantBy, Stage};
ghost use Rattle.ta_program.specs.Kinds.{file_kind};
ghost use Rattle.ta_program.specs.Values.{limits_of};

use crate::limits::{FILE_NUMBER, file_limit};
use crate::values::limits_of;
use std::alloc::Global;
use ta_base::limits::FILE_BYTES;
use ta_meaning::read_file;
use ta_report::file_fault_phrase;
use ta_scope::ScopedFile;
use ta_shelf::{Outputs, Refusal, Shelf, read_text, spare_read};
use ta_syntax::FileFault;

/// The file that a name's bytes mean, where they are legal within the limits.
pub(crate) fn read_legal<'a, S: Shelf>(
    alloc: Global,
    shelf: &mut S,
    name: &'a str,
    is_wide: bool,
) -> Result<ScopedFile, Refusal<'a>>
    ensures stage { Grew (Stage (file_kind (limits_of is_wide)) (λ scoped. scoped.file) (S.files shelf.old) name.now result) (S.calls shelf.old) (S.calls shelf.new) }
    ensures cause { ReadCause result (S.faults shelf.old) (S.faults shelf.new) }
    ensures kept { S.files shelf.new ≡ S.files shelf.old }
    ensures within { IfOk result (λ scoped. IsWithin (limits_of is_wide) scoped.file.automaton) }
{
    match read_text(alloc, shelf, name, file_limit(is_wide)) {
        Ok(bytes) => legal_of(alloc, name, bytes.as_slice(), is_wide),
        Err(refusal) => Err(refusal),
    }
}

/// The same within the narrow limits, those of the tree of words.
pub(crate) fn read_narrow<'a, S: Shelf>(
    alloc: Global,
    shelf: &mut S,
    name: &'a str,
) -> Result<ScopedFile, Refusal<'a>>
    ensures stage { Grew (Stage (file_kind narrow) (λ scoped. scoped.file) (S.files shelf.old) name.now result) (S.calls shelf.old) (S.calls shelf.new) }
    ensures cause { ReadCause result (S.faults shelf.old) (S.faults shelf.new) }
    ensures kept { S.files shelf.new ≡ S.files shelf.old }
    ensures narrow { IfOk result (λ scoped. IsNarrow scoped.file.automaton) }
{
    read_legal(alloc, shelf, name, false)
}

/// The same as the first, unless an output holds just these bytes: what was read isn't destroyed.
pub(crate) fn read_spared<'a, S: Shelf>(
    alloc: Global,
    shelf: &mut S,
    name: &'a str,
    is_wide: bool,
    outputs: &Outputs<'a>,
) -> Result<ScopedFile, Refusal<'a>>
    ensures stage { Grew (SparedStage (file_kind (limits_of is_wide)) (λ scoped. scoped.file) (S.files shelf.old) name.now (output_names outputs.now) result) (S.calls shelf.old) (S.calls shelf.new) }
    ensures cause { ReadCause result (S.faults shelf.old) (S.faults shelf.new) }
    ensures kept { S.files shelf.new ≡ S.files shelf.old }
    ensures within { IfOk result (λ scoped. IsWithin (limits_of is_wide) scoped.file.automaton) }
{
    match read_text(alloc, shelf, name, file_limit(is_wide)) {
        Ok(bytes) => match legal_of(alloc, name, bytes.as_slice(), is_wide) {
            Ok(scoped) => match spare_read(shelf, outputs, bytes.as_slice()) {
                Ok(()) => Ok(scoped),
                Err(refusal) => {
                    drop(scoped);
                    Err(refusal)
                }
            },
            Err(refusal) => Err(refusal),
        },
        Err(refusal) => Err(refusal),
    }
}

/// The file that bytes of a name mean, where they are legal within the limits.
fn legal_of<'a>(
    alloc: Global,
    name: &'a str,
    bytes: &[u8],
    is_wide: bool,
) -> Result<ScopedFile, Refusal<'a>>
    requires { length bytes.now ≤ FILE_BYTES }
    ensures meant { MeantBy (file_kind (limits_of is_wide)) (λ scoped. scoped.file) name.now bytes.now result }
    ensures cause { ReadCause result 0 0 }
    ensures within { IfOk result (λ scoped. IsWithin (limits_of is_wide) scoped.file.automaton) }
{
    let limits = limits_of(is_wide);
    match read_file(alloc, bytes, &limits) {
        Ok(scoped) => Ok(scoped),
        Err(FileFault::Memory) => Err(Refusal::Memory),
        Err(fault) => Err(Refusal::Refused {
            number: FILE_NUMBER,
            name,
            why: file_fault_phrase(&fault),
        }),
    }
}
