//! A file that is staged while its bytes are made.
//!
//! So a long file is never held in memory whole: each of its parts is handed to the shelf as soon as it
//! is known to belong to it. Where the shelf fails, what was staged is let go, and later bytes are
//! counted alone, so that what is made meanwhile can be told all the same.
#![tactic(auto)]

ghost use Rattle.std.specs.List.{concat};
ghost use Rattle.std.specs.Prelude.{◌≡◌, ◌++◌, ◌∷◌, [], ℕ, List, length, IfErr, IfOk};
ghost use Rattle.ta_shelf.specs.Ends.{ShelfState};
ghost use Rattle.ta_shelf.specs.OutputCalls.{AreStaging, Changed};
ghost use Rattle.ta_shelf.specs.Staging.{Begun, LeavesRoom, StagedOr, StagedSoFar};

use crate::{PutFault, Shelf};
use std::alloc::AllocError;
use ta_base::Text;
use ta_base::limits::CERTIFICATE_BYTES;

/// A file that is staged while its bytes are made.
#[derive(Drop)]
pub struct StagedFile<T: Drop> {
    /// What takes the bytes; none once the shelf failed.
    pub stage: Option<T>,
    /// How many more bytes it may have; none once there were too many.
    pub room: Option<u64>,
}

/// Begins a file of a name that may have as many bytes as a certificate.
pub fn begin_file<S: Shelf>(shelf: &mut S, name: &str) -> Result<StagedFile<S::Stage>, AllocError>
    ensures begun { IfOk result (λ file. StagedSoFar S.stage_name S.stage_bytes (record { name = name.now; before = record { files = S.files shelf.old; calls = S.calls shelf.old; faults = S.faults shelf.old } }) file
        (record { files = S.files shelf.new; calls = S.calls shelf.new; faults = S.faults shelf.new }) []) }
    ensures refused { IfErr result (λ _. Changed (AreStaging (name.now ∷ [])) (S.calls shelf.old) (S.calls shelf.new)) }
    ensures calm { IfErr result (λ _. S.faults shelf.new ≡ S.faults shelf.old) }
    ensures kept { S.files shelf.new ≡ S.files shelf.old }
{
    match shelf.begin(name) {
        Ok(stage) => Ok(StagedFile {
            stage: Some(stage),
            room: Some(CERTIFICATE_BYTES),
        }),
        Err(PutFault::Failed) => Ok(StagedFile {
            stage: None,
            room: Some(CERTIFICATE_BYTES),
        }),
        Err(PutFault::Memory) => Err(AllocError),
    }
}

/// Adds bytes, unless there are too many, or the shelf failed before.
pub fn add_to_file<S: Shelf>(
    shelf: &mut S,
    file: &mut StagedFile<S::Stage>,
    bytes: &[u8],
) -> Result<(), AllocError>
    ensures { (begun : Begun) (text : List ℕ) → StagedSoFar S.stage_name S.stage_bytes begun file.old (record { files = S.files shelf.old; calls = S.calls shelf.old; faults = S.faults shelf.old }) text
        → StagedOr S.stage_name S.stage_bytes begun result file.new (record { files = S.files shelf.new; calls = S.calls shelf.new; faults = S.faults shelf.new }) (text ++ bytes.now) }
{
    let Some(room) = room_left(file.room, bytes.len() as u64) else {
        file.room = None;
        return Ok(());
    };
    file.room = Some(room);
    let Some(mut stage) = file.stage.take() else {
        return Ok(());
    };
    match shelf.add(&mut stage, bytes) {
        Ok(()) => {
            file.stage = Some(stage);
            Ok(())
        }
        Err(PutFault::Failed) => {
            shelf.abandon(stage);
            Ok(())
        }
        Err(PutFault::Memory) => {
            file.stage = Some(stage);
            Err(AllocError)
        }
    }
}

/// How many more bytes there may be behind so many.
fn room_left(room: Option<u64>, size: u64) -> Option<u64>
    ensures { (text more : List ℕ) → length more ≡ size → LeavesRoom room text → LeavesRoom result (text ++ more) }
{
    match room {
        Some(room) if size <= room => Some(room - size),
        _ => None,
    }
}

/// Adds texts, one behind the other.
pub fn add_texts_to_file<S: Shelf>(
    shelf: &mut S,
    file: &mut StagedFile<S::Stage>,
    texts: &[Text],
) -> Result<(), AllocError>
    ensures { (begun : Begun) (text : List ℕ) → StagedSoFar S.stage_name S.stage_bytes begun file.old (record { files = S.files shelf.old; calls = S.calls shelf.old; faults = S.faults shelf.old }) text
        → StagedOr S.stage_name S.stage_bytes begun result file.new (record { files = S.files shelf.new; calls = S.calls shelf.new; faults = S.faults shelf.new }) (text ++ concat texts.now) }
{
    for text in texts {
        match add_to_file(shelf, file, text.as_str().as_bytes()) {
            Ok(()) => {}
            Err(error) => return Err(error),
        }
    }
    Ok(())
}
