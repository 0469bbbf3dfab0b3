//! Whether the outputs of a command can be begun.
#![tactic(auto)]

ghost use Rattle.std.specs.Prelude.{◌≡◌, ◌∷◌, [], option_map};
ghost use Rattle.ta_shelf.specs.OutputCalls.{AreStaging, Changed};
ghost use Rattle.ta_shelf.specs.Puts.{may_put, output_names};
ghost use Rattle.ta_shelf.specs.Putting.{BeginCause, BeginRefuses};

use crate::answer::{Outputs, Refusal};
use crate::{PutFault, Shelf};

/// Begins the files of a command's outputs and lets them go again, so that a name that can't be written
/// is told before anything is done.
pub(crate) fn try_outputs<'a, S: Shelf>(
    shelf: &mut S,
    outputs: &Outputs<'a>,
) -> Result<(), Refusal<'a>>
    ensures refuses { BeginRefuses (output_names outputs.now) result }
    ensures log { Changed (AreStaging (output_names outputs.now)) (S.calls shelf.old) (S.calls shelf.new) }
    ensures cause { BeginCause result (S.faults shelf.old) (S.faults shelf.new) }
    ensures kept { S.files shelf.new ≡ S.files shelf.old }
{
    let first = try_given(shelf, outputs.first);
    match first {
        Ok(()) => try_given(shelf, outputs.second),
        Err(_) => first,
    }
}

/// The same of one name, where it is given.
fn try_given<'a, S: Shelf>(shelf: &mut S, name: Option<&'a str>) -> Result<(), Refusal<'a>>
    ensures refuses { BeginRefuses (may_put (option_map (λ w. w.now) name.entry)) result }
    ensures log { Changed (AreStaging (may_put (option_map (λ w. w.now) name.entry))) (S.calls shelf.old) (S.calls shelf.new) }
    ensures cause { BeginCause result (S.faults shelf.old) (S.faults shelf.new) }
    ensures kept { S.files shelf.new ≡ S.files shelf.old }
{
    match name {
        None => Ok(()),
        Some(name) => try_name(shelf, name),
    }
}

/// The same of one name.
fn try_name<'a, S: Shelf>(shelf: &mut S, name: &'a str) -> Result<(), Refusal<'a>>
    ensures refuses { BeginRefuses (name.now ∷ []) result }
    ensures log { Changed (AreStaging (name.now ∷ [])) (S.calls shelf.old) (S.calls shelf.new) }
    ensures cause { BeginCause result (S.faults shelf.old) (S.faults shelf.new) }
    ensures kept { S.files shelf.new ≡ S.files shelf.old }
{
    match shelf.begin(name) {
        Ok(stage) => {
            shelf.abandon(stage);
            Ok(())
        }
        Err(PutFault::Failed) => Err(Refusal::PutFailed { name }),
        Err(PutFault::Memory) => Err(Refusal::Memory),
    }
}
