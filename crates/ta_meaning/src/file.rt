//! From a tree to the file that it means.
#![tactic(auto)]

ghost use Rattle.std.specs.Prelude.{◌≡◌, ◌≤◌, IfOk, length, map};
ghost use Rattle.ta_syntax.specs.PlainTrees.{plain_tree, plain_name, plain_location};
ghost use Rattle.ta_meaning.specs.Names.{names_of, location_name};
ghost use Rattle.ta_meaning.specs.Faults.{Answers, meaning_faults};
ghost use Rattle.ta_meaning.specs.Meaning.{MeansTree, initial_from};
ghost use Rattle.ta_meaning.specs.Inside.Resolved.{kinds_of};
ghost use Rattle.ta_meaning.specs.Inside.TreeHead.{head_faults, HeadClean, HeadOf};

use crate::conditions::{resolve_condition, resolve_sum};
use crate::declarations::declare_places;
use crate::patterns::resolve_patterns;
use crate::places::Places;
use crate::rules::resolve_rules;
use std::alloc::{AllocError, Global};
use ta_automaton::{Automaton, Condition, File};
use ta_base::limits::Limits;
use ta_base::{List, Text};
use ta_linear::Form;
use ta_syntax::{FileFault, Spelled, Tree, TreeLocation};

/// The file that a tree means: Ok exactly where no error of meaning is there, else the first one,
/// guards being counted against the limits.
pub fn resolve(alloc: Global, limits: &Limits, tree: Tree) -> Result<File, FileFault>
    ensures { Answers (meaning_faults limits.now tree) (MeansTree (plain_tree tree)) result }
{
    let places = declare_places(alloc, &tree)?;
    let head = resolve_head(alloc, &places, &tree)?;
    resolve_rest(alloc, limits, &places, head, tree)
}

/// The number of processes and the resilience condition of a tree.
#[derive(Drop)]
pub struct TreeHead {
    pub processes: Form,
    pub resilience: Condition,
}

/// What stands in a tree between the names of its places and its rules.
fn resolve_head(alloc: Global, places: &Places, tree: &Tree) -> Result<TreeHead, FileFault>
    requires { kinds_of places.now ≡ names_of tree.now }
    ensures { Answers (head_faults tree.now) (HeadOf tree.now) result }
{
    let parameters = places.parameters;
    let at = tree.processes_at;
    let processes = resolve_sum(alloc, places, parameters, at, &tree.processes)?;
    let resilience = resolve_condition(alloc, places, parameters, tree.resilience.as_slice())?;
    Ok(TreeHead {
        processes,
        resilience,
    })
}

/// The file that a tree means, given what stands before its rules, where that has no error.
fn resolve_rest(
    alloc: Global,
    limits: &Limits,
    places: &Places,
    head: TreeHead,
    tree: Tree,
) -> Result<File, FileFault>
    requires places { kinds_of places.now ≡ names_of tree }
    requires clean { HeadClean tree }
    requires head { HeadOf tree head }
    ensures { Answers (meaning_faults limits.now tree) (MeansTree (plain_tree tree)) result }
{
    let rules = resolve_rules(alloc, limits, places, tree.rules.into_vec())?;
    let patterns = resolve_patterns(alloc, places, tree.patterns.into_vec())?;
    let names = declared_names(alloc, tree.parameters, tree.shared, tree.locations)?;
    let automaton = Automaton {
        name: tree.name.name,
        parameters: names.parameters,
        shared: names.shared,
        locations: names.locations,
        initial: names.initial,
        processes: head.processes,
        resilience: head.resilience,
        rise: List::from_vec(rules.rise),
        fall: List::from_vec(rules.fall),
        rules: List::from_vec(rules.rules),
    };
    Ok(File {
        automaton,
        patterns: List::from_vec(patterns),
    })
}

/// The names that a tree declares for its places, and the numbers of its initial locations.
#[derive(Drop)]
struct DeclaredNames {
    parameters: List<Text>,
    shared: List<Text>,
    locations: List<Text>,
    initial: List<u32>,
}

/// The names of a tree's places, without their offsets.
fn declared_names(
    alloc: Global,
    parameters: List<Spelled>,
    shared: List<Spelled>,
    locations: List<TreeLocation>,
) -> Result<DeclaredNames, AllocError>
    requires { length locations ≤ 128 }
    ensures parameters { IfOk result (λ names. names.parameters ≡ map plain_name parameters) }
    ensures shared { IfOk result (λ names. names.shared ≡ map plain_name shared) }
    ensures locations { IfOk result (λ names. names.locations ≡ map location_name (map plain_location locations)) }
    ensures initial { IfOk result (λ names. names.initial ≡ initial_from 0 (map plain_location locations)) }
{
    let initial = initial_locations(alloc, locations.as_slice())?;
    Ok(DeclaredNames {
        parameters: List::from_vec(texts_of(alloc, parameters.into_vec())?),
        shared: List::from_vec(texts_of(alloc, shared.into_vec())?),
        locations: List::from_vec(location_names(alloc, locations.into_vec())?),
        initial: List::from_vec(initial),
    })
}

/// The texts of names, in order.
fn texts_of(alloc: Global, names: Vec<Spelled>) -> Result<Vec<Text>, AllocError>
    ensures { IfOk result (λ texts. texts.items ≡ map plain_name names.items) }
{
    names.into_iter().map(|name| name.name).collect(alloc)
}

/// The names of locations, in order.
fn location_names(alloc: Global, locations: Vec<TreeLocation>) -> Result<Vec<Text>, AllocError>
    ensures { IfOk result (λ texts. texts.items ≡ map location_name (map plain_location locations.items)) }
{
    locations
        .into_iter()
        .map(|location| location.name.name)
        .collect(alloc)
}

/// The numbers of the locations that are marked as initial.
fn initial_locations(alloc: Global, locations: &[TreeLocation]) -> Result<Vec<u32>, AllocError>
    requires { length locations.now ≤ 128 }
    ensures { IfOk result (λ numbers. numbers.items ≡ initial_from 0 (map plain_location locations.now)) }
{
    let mut numbers = Vec::new(alloc);
    for (number, location) in locations.iter().enumerate() {
        if location.initial {
            numbers.push(number as u32)?;
        }
    }
    Ok(numbers)
}
