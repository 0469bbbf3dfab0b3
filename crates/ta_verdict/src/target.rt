//! Where the lines of a certificate go.
#![tactic(auto)]

ghost use Rattle.std.specs.Prelude.{true};
ghost use Rattle.ta_shelf.proofs.StagedMore.{in_part};
ghost use Rattle.ta_shelf.specs.Staging.{StagedInPart, StagedSoFar};

use crate::draft::Draft;
use std::alloc::{AllocError, Global};
use ta_shelf::{Shelf, StagedFile, add_texts_to_file};

/// Where the lines of a certificate go, part by part: into memory, or to a file that is staged in some
/// place.
pub trait Target<P> {
    ghost use Rattle.std.specs.Prelude.{◌≡◌, ◌++◌, Bool, IfErr, List, OnOk, ℕ};
    ghost use Rattle.ta_shelf.specs.Staging.{Begun};
    ghost use Rattle.ta_verdict.specs.Drafts.{HasText};

    // since it was begun so, these bytes went to it
    ghost has: { Begun → Self → P → List ℕ → Type 0 };

    // since it was begun so, some bytes went to it, and memory ran out
    ghost stopped: { Begun → Self → P → Type 0 };

    // whether lines are wanted
    ghost wants: { Self → Bool };

    /// Whether lines are wanted.
    fn wanted(&self) -> bool
        ensures { result ≡ wants self.now };

    /// Adds the lines of a draft.
    fn add(&mut self, alloc: Global, place: &mut P, part: Draft) -> Result<(), AllocError>
        requires { part.wanted ≡ wants self.old }
        ensures wanted { OnOk result (wants self.new ≡ wants self.old) }
        ensures added { (begun : Begun) (text more : List ℕ) → has begun self.old place.old text → HasText part more → OnOk result (has begun self.new place.new (text ++ more)) }
        ensures stops { (begun : Begun) (text : List ℕ) → has begun self.old place.old text → IfErr result (λ _. stopped begun self.new place.new) };

    // it may stop at any time
    ghost may_stop: { (begun : Begun) (target : Self) (place : P) (text : List ℕ) → has begun target place text → stopped begun target place };
}

impl Target<()> for Draft {
    ghost use Rattle.ta_verdict.specs.Drafts.{HasText};

    ghost has = { λ _ draft _ text. HasText draft text };

    ghost stopped = { λ _ _ _. Unit {0} };

    ghost wants = { λ draft. draft.wanted };

    ghost may_stop = { λ _ _ _ _ _. tt };

    fn wanted(&self) -> bool {
        self.wanted
    }

    fn add(&mut self, alloc: Global, _place: &mut (), part: Draft) -> Result<(), AllocError> {
        self.join(alloc, part)
    }
}

impl<S: Shelf> Target<S> for StagedFile<S::Stage> {
    ghost has = { λ begun file shelf text. StagedSoFar S.stage_name S.stage_bytes begun file (record { files = S.files shelf; calls = S.calls shelf; faults = S.faults shelf }) text };

    ghost stopped = { λ begun file shelf. StagedInPart S.stage_name begun file (record { files = S.files shelf; calls = S.calls shelf; faults = S.faults shelf }) };

    ghost wants = { λ _. true };

    ghost may_stop = { λ begun file shelf text has. in_part S.stage_name S.stage_bytes begun file _ text has };

    fn wanted(&self) -> bool {
        true
    }

    fn add(&mut self, alloc: Global, shelf: &mut S, part: Draft) -> Result<(), AllocError> {
        let lines = part.into_pieces(alloc)?;
        add_texts_to_file(shelf, self, lines.as_slice())
    }
}
