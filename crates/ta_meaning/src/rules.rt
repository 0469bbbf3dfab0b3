//! Rules and their guards.
#![tactic(auto)]

ghost use Rattle.std.specs.Prelude.{◌≡◌, ◌≤◌, ◌∷◌, ◌++◌, [], length, map, slice_get, Some};
ghost use Rattle.ta_syntax.specs.PlainTrees.{plain_rule};
ghost use Rattle.ta_automaton.specs.Shape.{name_of};
ghost use Rattle.ta_meaning.specs.Guards.{no_guards};
ghost use Rattle.ta_meaning.specs.Faults.{Judges, Answers, used_faults, rule_faults, rules_faults};
ghost use Rattle.ta_meaning.specs.Names.{all_names};
ghost use Rattle.ta_meaning.specs.Inside.Numbering.{guards_so_far, GuardsKept};
ghost use Rattle.ta_meaning.specs.Inside.RuleReading.{RuleRead, rule_of};
ghost use Rattle.ta_meaning.specs.Inside.Resolved.{kinds_of, ResolvedRules};

use crate::guards::{GuardList, GuardMasks, number_guards};
use crate::named::check_declared;
use crate::places::Places;
use crate::updates::read_updates;
use std::alloc::Global;
use ta_automaton::Rule;
use ta_base::List;
use ta_base::limits::Limits;
use ta_linear::Row;
use ta_syntax::{FileFault, Spelled, TreeRule};

/// The rules of a file, and its distinct guards by first appearance.
#[derive(Drop)]
pub struct Rules {
    pub rise: Vec<Row>,
    pub fall: Vec<Row>,
    pub rules: Vec<Rule>,
}

/// The rules that a tree's rules mean.
pub fn resolve_rules(
    alloc: Global,
    limits: &Limits,
    places: &Places,
    rules: Vec<TreeRule>,
) -> Result<Rules, FileFault>
    requires { length rules.items ≤ 1024 }
    ensures { Answers (rules_faults limits.now (kinds_of places.now) [] no_guards rules.items) (λ r. ResolvedRules limits.now (kinds_of places.now) (map plain_rule rules.items) r.rise.items r.fall.items r.rules.items) result }
{
    let mut guards = GuardList {
        rise: Vec::new(alloc),
        fall: Vec::new(alloc),
    };
    let mut resolved = Vec::new(alloc);
    for rule in rules {
        let one = resolve_rule(
            alloc,
            limits,
            places,
            resolved.as_slice(),
            &mut guards,
            rule,
        )?;
        resolved.push(one)?;
    }
    Ok(Rules {
        rise: guards.rise,
        fall: guards.fall,
        rules: resolved,
    })
}

/// The rule that a tree's rule means, after the names of rules and the guards so far.
fn resolve_rule(
    alloc: Global,
    limits: &Limits,
    places: &Places,
    before: &[Rule],
    guards: &mut GuardList,
    rule: TreeRule,
) -> Result<Rule, FileFault>
    requires { GuardsKept limits.now (kinds_of places.now) guards.old }
    ensures { Answers (rule_faults limits.now (kinds_of places.now) (map name_of before.now) (guards_so_far (kinds_of places.now) guards.old) rule) (λ r. RuleRead limits.now (kinds_of places.now) (map name_of before.now) guards.old rule (map name_of before.now ++ rule.name.name ∷ []) guards.new r) result }
{
    let parts = rule_parts(alloc, limits, places, before, guards, &rule)?;
    Ok(Rule {
        name: rule.name.name,
        from: parts.from,
        to: parts.to,
        rise: parts.masks.rise,
        fall: parts.masks.fall,
        updates: parts.updates,
    })
}

/// What a tree's rule means but for its name.
#[derive(Drop)]
pub struct RuleParts {
    pub from: u32,
    pub to: u32,
    pub masks: GuardMasks,
    pub updates: List<(u32, i128)>,
}

/// The parts of the rule that a tree's rule means, after the names of rules and the guards so far.
fn rule_parts(
    alloc: Global,
    limits: &Limits,
    places: &Places,
    before: &[Rule],
    guards: &mut GuardList,
    rule: &TreeRule,
) -> Result<RuleParts, FileFault>
    requires { GuardsKept limits.now (kinds_of places.now) guards.old }
    ensures { Answers (rule_faults limits.now (kinds_of places.now) (map name_of before.now) (guards_so_far (kinds_of places.now) guards.old) rule.now) (λ parts. RuleRead limits.now (kinds_of places.now) (map name_of before.now) guards.old rule.now (map name_of before.now ++ rule.now.name.name ∷ []) guards.new (rule_of rule.now parts)) result }
{
    check_declared(before, &rule.name)?;
    let from = location_in(places, &rule.from)?;
    let to = location_in(places, &rule.to)?;
    let masks = number_guards(alloc, limits, places, guards, rule.guards.as_slice())?;
    let updates = read_updates(alloc, places, rule.updates.as_slice())?;
    Ok(RuleParts {
        from,
        to,
        masks,
        updates: List::from_vec(updates),
    })
}

/// The number of a location: F4 where its name isn't declared, F5 where it is no location's.
fn location_in(places: &Places, name: &Spelled) -> Result<u32, FileFault>
    ensures { Judges (used_faults (all_names (kinds_of places.now)) (kinds_of places.now).locations name.now) (λ location. slice_get (kinds_of places.now).locations location ≡ Some name.now.name) result }
{
    let first = places.parameters + places.shared;
    let count = places.names.len() as u32;
    places.names.number_in(first, count, name)
}
