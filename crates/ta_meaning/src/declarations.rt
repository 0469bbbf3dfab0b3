//! The names that a file declares for its places.
#![tactic(auto)]

ghost use Rattle.std.specs.Prelude.{◌≡◌, [], ◌++◌, map, not};
ghost use Rattle.std.specs.List.{list_any};
ghost use Rattle.ta_syntax.specs.PlainTrees.{plain_name};
ghost use Rattle.ta_meaning.specs.Names.{all_names, names_of};
ghost use Rattle.ta_meaning.specs.Faults.{Judges, Answers, where_, any_initial, location_spelled, declarations_faults, names_faults};
ghost use Rattle.ta_meaning.specs.Inside.Resolved.{kinds_of};

use crate::named::check_length;
use crate::names::NameList;
use crate::places::Places;
use std::alloc::Global;
use ta_syntax::{FileFault, Spelled, Tree, TreeLocation};

/// The places of a tree, where its names are legal and some location is initial.
pub fn declare_places(alloc: Global, tree: &Tree) -> Result<Places, FileFault>
    ensures { Answers (names_faults (names_of tree.now) tree.now) (λ places. kinds_of places ≡ names_of tree.now) result }
{
    let names = declare_tree(alloc, tree)?;
    Ok(Places {
        names,
        parameters: tree.parameters.as_slice().len() as u32,
        shared: tree.shared.as_slice().len() as u32,
    })
}

/// The names of a tree's places, in order.
fn declare_tree(alloc: Global, tree: &Tree) -> Result<NameList, FileFault>
    ensures { Answers (names_faults (names_of tree.now) tree.now) (λ names. names ≡ all_names (names_of tree.now)) result }
{
    let mut names = NameList::new(alloc);
    declare_into(alloc, &mut names, tree)?;
    Ok(names)
}

/// Declares the names of a tree's places, in order.
fn declare_into(alloc: Global, names: &mut NameList, tree: &Tree) -> Result<(), FileFault>
    requires { names.old ≡ [] }
    ensures { Answers (names_faults (names_of tree.now) tree.now) (λ _. names.new ≡ all_names (names_of tree.now)) result }
{
    check_length(&tree.name)?;
    declare_names(alloc, names, tree.parameters.as_slice())?;
    declare_names(alloc, names, tree.shared.as_slice())?;
    check_initial(tree)?;
    declare_locations(alloc, names, tree.locations.as_slice())?;
    Ok(())
}

/// F12 where no location is initial.
fn check_initial(tree: &Tree) -> Result<(), FileFault>
    ensures { Judges (where_ (not (any_initial tree.now.locations)) (FileFault.NoInitial tree.now.locations_at)) (λ _. Unit {0}) result }
{
    if !has_initial(tree.locations.as_slice()) {
        return Err(FileFault::NoInitial(tree.locations_at));
    }
    Ok(())
}

/// Whether some location is initial.
fn has_initial(locations: &[TreeLocation]) -> bool
    ensures { result ≡ list_any (λ l. l.initial) locations.now }
{
    locations.iter().any(|location| location.initial)
}

/// Declares names one after another.
fn declare_names(alloc: Global, names: &mut NameList, spelled: &[Spelled]) -> Result<(), FileFault>
    ensures { Answers (declarations_faults names.old spelled.now) (λ _. names.new ≡ names.old ++ map plain_name spelled.now) result }
{
    for name in spelled {
        names.declare(alloc, name)?;
    }
    Ok(())
}

/// Declares the names of locations one after another.
fn declare_locations(
    alloc: Global,
    names: &mut NameList,
    locations: &[TreeLocation],
) -> Result<(), FileFault>
    ensures { Answers (declarations_faults names.old (map location_spelled locations.now)) (λ _. names.new ≡ names.old ++ map plain_name (map location_spelled locations.now)) result }
{
    for location in locations {
        names.declare(alloc, &location.name)?;
    }
    Ok(())
}
