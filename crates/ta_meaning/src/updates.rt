//! The updates of rules.
#![tactic(auto)]

ghost use Rattle.std.specs.Prelude.{◌≡◌, ◌<◌, ◌≤◌, [], ◌∷◌, ◌++◌, length, map, slice_get, Some, OnOk};
ghost use Rattle.std.specs.List.{AllByRecursion};
ghost use Rattle.ta_syntax.specs.PlainTrees.{plain_update};
ghost use Rattle.ta_meaning.specs.Names.{all_names};
ghost use Rattle.ta_meaning.specs.Faults.{Judges, Answers, else_, where_, used_faults, updates_faults};
ghost use Rattle.ta_meaning.specs.Inside.Resolved.{kinds_of};
ghost use Rattle.ta_meaning.specs.Inside.Updating.{names_at, variable_faults, IsNewVariable, UpdatesRead, WithUpdate};

use crate::numbers::read_number;
use crate::places::Places;
use std::alloc::{AllocError, Global};
use ta_syntax::{FileFault, Spelled, TreeUpdate};

/// The updates that a rule's updates mean, those by 0 left out.
pub(crate) fn read_updates(
    alloc: Global,
    places: &Places,
    updates: &[TreeUpdate],
) -> Result<Vec<(u32, i128)>, FileFault>
    ensures { Answers (updates_faults (kinds_of places.now) [] updates.now) (λ read. UpdatesRead (kinds_of places.now) (map plain_update updates.now) read.items) result }
{
    let mut seen = Vec::new(alloc);
    let mut read = Vec::new(alloc);
    for update in updates {
        let variable = variable_in(places, seen.as_slice(), &update.name)?;
        seen.push(variable)?;
        let amount = read_number(&update.amount)?;
        push_update(&mut read, variable, amount)?;
    }
    Ok(read)
}

/// The number of a shared variable that is none of those seen: F3 where it was seen, F4 where it
/// isn't declared, F5 where it is no shared variable.
fn variable_in(places: &Places, seen: &[u32], name: &Spelled) -> Result<u32, FileFault>
    requires { AllByRecursion (λ x. x < length (kinds_of places.now).shared) seen.now }
    ensures { Judges (variable_faults (kinds_of places.now) (names_at (kinds_of places.now).shared seen.now) name.now) (λ variable. IsNewVariable (kinds_of places.now).shared seen.now name.now.name variable) result }
{
    let shared = places.parameters + places.shared;
    let variable = places.names.number_in(places.parameters, shared, name)?;
    if seen.contains(&variable) {
        return Err(FileFault::Duplicate(name.at));
    }
    Ok(variable)
}

/// One more update, unless it is by 0.
fn push_update(updates: &mut Vec<(u32, i128)>, variable: u32, amount: u32) -> Result<(), FileFault>
    ensures { WithUpdate updates.old.items variable amount updates.new.items result }
{
    if amount != 0 {
        updates.push((variable, i128::from(amount)))?;
    }
    Ok(())
}
