//! What becomes of a staged file once it is known what is answered.
#![tactic(auto)]

ghost use Rattle.std.specs.Prelude.{◌≡◌, ◌∷◌, [], List, ℕ, Err, None};
ghost use Rattle.ta_shelf.specs.Ends.{ShelfState};
ghost use Rattle.ta_shelf.specs.OutputCalls.{Changed};
ghost use Rattle.ta_shelf.specs.Staging.{Begun, HasNoAnswer, IsOutputOf, SettlesFile, StagedBy, StagedInPart, StagedSoFar};

use crate::Shelf;
use crate::answer::Refusal;
use crate::file_reading::long_certificate;
use crate::staged_answer::{StagedAnswer, StagedOutput};
use crate::staged_file::StagedFile;
use ta_base::Text;

/// The answer that writes a text and puts a file that is staged to its end, unless it is too long.
pub fn answer_staged<'a, S: Shelf>(
    shelf: &mut S,
    number: u8,
    text: Text,
    name: &'a str,
    file: StagedFile<S::Stage>,
) -> Result<StagedAnswer<'a, S::Stage>, Refusal<'a>>
    ensures settles { (begun : Begun) (written : List ℕ) → StagedSoFar S.stage_name S.stage_bytes begun file (record { files = S.files shelf.old; calls = S.calls shelf.old; faults = S.faults shelf.old }) written → SettlesFile S.stage_bytes number text name.now written result }
    ensures staged { (begun : Begun) (written : List ℕ) → begun.name ≡ name.now → StagedSoFar S.stage_name S.stage_bytes begun file (record { files = S.files shelf.old; calls = S.calls shelf.old; faults = S.faults shelf.old }) written
        → Changed (StagedBy (name.now ∷ []) S.stage_name S.stage_bytes result begun.before.faults (S.faults shelf.new)) begun.before.calls (S.calls shelf.new) }
    ensures kept { S.files shelf.new ≡ S.files shelf.old }
{
    match file.room {
        None => Err(let_long_go(shelf, name, file)),
        Some(_) => Ok(StagedAnswer {
            number,
            text,
            output: output_of(name, file.stage),
        }),
    }
}

/// Lets a staged file go that is too long, and says why there is no answer.
fn let_long_go<'a, S: Shelf>(
    shelf: &mut S,
    name: &'a str,
    file: StagedFile<S::Stage>,
) -> Refusal<'a>
    requires { file.room ≡ None }
    ensures settles { (number : ℕ) (text written : List ℕ) (begun : Begun) → StagedSoFar S.stage_name S.stage_bytes begun file (record { files = S.files shelf.old; calls = S.calls shelf.old; faults = S.faults shelf.old }) written → SettlesFile S.stage_bytes number text name.now written (Err result) }
    ensures staged { (begun : Begun) (written : List ℕ) → begun.name ≡ name.now → StagedSoFar S.stage_name S.stage_bytes begun file (record { files = S.files shelf.old; calls = S.calls shelf.old; faults = S.faults shelf.old }) written
        → Changed (StagedBy (name.now ∷ []) S.stage_name S.stage_bytes (Err result) begun.before.faults (S.faults shelf.new)) begun.before.calls (S.calls shelf.new) }
    ensures kept { S.files shelf.new ≡ S.files shelf.old }
{
    let StagedFile { stage, .. } = file;
    match stage {
        Some(stage) => {
            shelf.abandon(stage);
            long_certificate(name)
        }
        None => Refusal::PutFailed { name },
    }
}

/// The output of a name, which a stage took where there is one.
fn output_of<'a, T: Drop>(name: &'a str, stage: Option<T>) -> StagedOutput<'a, T>
    ensures { IsOutputOf name.now stage result }
{
    match stage {
        Some(stage) => StagedOutput::Staged { name, stage },
        None => StagedOutput::Lost { name },
    }
}

/// Lets a staged file go where memory ran out, and says why there is no answer.
pub fn let_go<'a, S: Shelf>(shelf: &mut S, name: &'a str, file: StagedFile<S::Stage>) -> Refusal<'a>
    ensures staged { (begun : Begun) → begun.name ≡ name.now → StagedInPart S.stage_name begun file (record { files = S.files shelf.old; calls = S.calls shelf.old; faults = S.faults shelf.old })
        → Changed (StagedBy (name.now ∷ []) S.stage_name S.stage_bytes (Err result) begun.before.faults (S.faults shelf.new)) begun.before.calls (S.calls shelf.new) }
    ensures no_answer { HasNoAnswer result }
    ensures kept { S.files shelf.new ≡ S.files shelf.old }
{
    let StagedFile { stage, .. } = file;
    match stage {
        Some(stage) => {
            shelf.abandon(stage);
            Refusal::Memory
        }
        None => Refusal::PutFailed { name },
    }
}
