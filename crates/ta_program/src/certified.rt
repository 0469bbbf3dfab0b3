//! The certificate of `verify` and of `rest`.
#![tactic(auto)]

ghost use Rattle.std.specs.List.{concat};
ghost use Rattle.std.specs.Prelude.{◌≡◌, ◌≤◌, ◌↔◌, ◌∷◌, [], IfOk, IsTrue, length, List, OnOk, ℕ};
ghost use Rattle.ta_shelf.specs.Ends.{ShelfState};
ghost use Rattle.ta_shelf.specs.OutputCalls.{Changed};
ghost use Rattle.ta_shelf.specs.Staging.{Begun, result_seen, StagedBy, StagedOr, StagedSoFar};
ghost use Rattle.ta_program.specs.Inside.Certifying.{CertifiesReport, IsPlain};

use crate::telling::Report;
use std::alloc::{AllocError, Global};
use ta_base::Text;
use ta_shelf::{
    Content, Put, Refusal, Shelf, StagedAnswer, StagedFile, StagedOutput, answer_staged, let_go,
};

/// The answer that writes a report, and puts no file.
pub(crate) fn answer_plain<'a, T: Drop>(
    report: Result<Report, AllocError>,
) -> Result<StagedAnswer<'a, T>, Refusal<'a>>
    ensures { IsPlain report result }
{
    match report {
        Ok(Report { number, text }) => Ok(StagedAnswer {
            number,
            text,
            output: StagedOutput::Unasked,
        }),
        Err(AllocError) => Err(Refusal::Memory),
    }
}

/// The answer that writes a report and puts the certificate that was staged meanwhile, unless it is too
/// long.
pub(crate) fn answer_certified<'a, S: Shelf>(
    shelf: &mut S,
    name: &'a str,
    file: StagedFile<S::Stage>,
    report: Result<Report, AllocError>,
) -> Result<StagedAnswer<'a, S::Stage>, Refusal<'a>>
    ensures certified { (begun : Begun) (written : List ℕ) → begun.name ≡ name.now → OnOk report (StagedSoFar S.stage_name S.stage_bytes begun file (record { files = S.files shelf.old; calls = S.calls shelf.old; faults = S.faults shelf.old }) written) → CertifiesReport report name.now written (result_seen S.stage_bytes written result) }
    ensures staged { (begun : Begun) (written : List ℕ) → begun.name ≡ name.now → StagedOr S.stage_name S.stage_bytes begun report file (record { files = S.files shelf.old; calls = S.calls shelf.old; faults = S.faults shelf.old }) written
        → Changed (StagedBy (name.now ∷ []) S.stage_name S.stage_bytes result begun.before.faults (S.faults shelf.new)) begun.before.calls (S.calls shelf.new) }
    ensures kept { S.files shelf.new ≡ S.files shelf.old }
{
    match report {
        Ok(Report { number, text }) => answer_staged(shelf, number, text, name, file),
        Err(AllocError) => Err(let_go(shelf, name, file)),
    }
}

/// The file of a name with this content, to be put on the shelf.
pub(crate) fn put_of(alloc: Global, name: &str, content: Content) -> Result<Put, AllocError>
    ensures { IfOk result (λ put. (put.name ≡ name.now) × (put.content ≡ content)) }
{
    let name = String::from_str(alloc, name)?;
    Ok(Put {
        name: Text::from_string(name),
        content,
    })
}

/// Whether texts have together at most so many bytes.
pub(crate) fn are_within(texts: &[Text], limit: u64) -> bool
    ensures { IsTrue result ↔ length (concat texts.now) ≤ limit }
{
    let mut left = limit;
    for text in texts {
        let size = text.as_str().len() as u64;
        if left < size {
            return false;
        }
        left -= size;
    }
    true
}
