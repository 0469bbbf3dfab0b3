//! Patterns and their events.
#![tactic(auto)]

ghost use Rattle.std.specs.Prelude.{◌+◌, ◌<◌, ◌≤◌, ◌∷◌, ◌++◌, [], length, map};
ghost use Rattle.ta_syntax.specs.PlainTrees.{plain_name, plain_comparison, plain_event, plain_pattern};
ghost use Rattle.ta_base.specs.Lists.{Distinct};
ghost use Rattle.ta_automaton.specs.Patterns.{pattern_name};
ghost use Rattle.ta_meaning.specs.Names.{all_names};
ghost use Rattle.ta_meaning.specs.Faults.{Judges, Answers, in_conditions, condition_faults, listed_faults, event_faults, events_faults, pattern_faults, patterns_faults};
ghost use Rattle.ta_meaning.specs.Inside.Resolved.{kinds_of, ResolvedCondition, ResolvedPatterns};
ghost use Rattle.ta_meaning.specs.Inside.Listed.{ListedMask};
ghost use Rattle.ta_meaning.specs.Inside.PatternParts.{ResolvedEvent, ResolvedEvents, ResolvedPattern, event_of, pattern_head_faults, PatternHeadOf};

use crate::conditions::resolve_condition;
use crate::masks::listed_mask;
use crate::named::check_declared;
use crate::names::NameList;
use crate::places::Places;
use std::alloc::Global;
use ta_automaton::{Condition, Event, Pattern};
use ta_base::List;
use ta_syntax::{FileFault, Spelled, TreeComparison, TreeEvent, TreePattern};

/// The patterns that a tree's patterns mean.
pub fn resolve_patterns(
    alloc: Global,
    places: &Places,
    patterns: Vec<TreePattern>,
) -> Result<Vec<Pattern>, FileFault>
    requires { length patterns.items ≤ 64 }
    ensures { Answers (patterns_faults (kinds_of places.now) [] patterns.items) (λ ps. ResolvedPatterns (kinds_of places.now) (map plain_pattern patterns.items) ps.items) result }
{
    let mut resolved = Vec::new(alloc);
    for pattern in patterns {
        let one = resolve_pattern(alloc, places, resolved.as_slice(), pattern)?;
        resolved.push(one)?;
    }
    Ok(resolved)
}

/// The pattern that a tree's pattern means, after others.
fn resolve_pattern(
    alloc: Global,
    places: &Places,
    before: &[Pattern],
    pattern: TreePattern,
) -> Result<Pattern, FileFault>
    requires { Distinct (map pattern_name before.now) }
    ensures { Answers (pattern_faults (kinds_of places.now) (map pattern_name before.now) pattern) (ResolvedPattern (kinds_of places.now) (map pattern_name before.now) (plain_pattern pattern) (map pattern_name before.now ++ pattern.name.name ∷ [])) result }
{
    let head = pattern_head(alloc, places, before, &pattern)?;
    let events = resolve_events(alloc, places, pattern.events.into_vec())?;
    Ok(Pattern {
        name: pattern.name.name,
        start: head.start,
        empty: head.empty,
        events: List::from_vec(events),
    })
}

/// What a tree's pattern means but for its name and its events.
#[derive(Drop)]
pub struct PatternHead {
    pub start: Condition,
    pub empty: u128,
}

/// What a tree's pattern means before its events, its name being after those of others.
fn pattern_head(
    alloc: Global,
    places: &Places,
    before: &[Pattern],
    pattern: &TreePattern,
) -> Result<PatternHead, FileFault>
    ensures { Answers (pattern_head_faults (kinds_of places.now) (map pattern_name before.now) pattern.now) (PatternHeadOf (kinds_of places.now) pattern.now) result }
{
    check_declared(before, &pattern.name)?;
    let start = resolve_over_all(alloc, places, pattern.start.as_slice())?;
    let empty = empty_mask(places, pattern.empty.as_slice())?;
    Ok(PatternHead { start, empty })
}

/// The events that a pattern's events mean.
fn resolve_events(
    alloc: Global,
    places: &Places,
    events: Vec<TreeEvent>,
) -> Result<Vec<Event>, FileFault>
    requires { length events.items ≤ 8 }
    ensures { Answers (events_faults (kinds_of places.now) [] events.items) (λ es. ResolvedEvents (kinds_of places.now) (map plain_event events.items) es.items) result }
{
    let mut names = NameList::new(alloc);
    let mut resolved = Vec::new(alloc);
    for event in events {
        resolved.push(resolve_event(alloc, places, &mut names, event)?)?;
    }
    Ok(resolved)
}

/// The event that a pattern's event means, after others; its name is declared then.
fn resolve_event(
    alloc: Global,
    places: &Places,
    names: &mut NameList,
    event: TreeEvent,
) -> Result<Event, FileFault>
    requires few { length names.old < 8 }
    requires distinct { Distinct names.old }
    ensures { Answers (event_faults (kinds_of places.now) names.old event) (ResolvedEvent (kinds_of places.now) names.old (plain_event event) names.new) result }
{
    let parts = event_parts(alloc, places, names, &event)?;
    Ok(Event {
        name: event.name.name,
        after: parts.after,
        condition: parts.condition,
    })
}

/// What a pattern's event means but for its name.
#[derive(Drop)]
pub struct EventParts {
    pub after: u8,
    pub condition: Condition,
}

/// The parts of the event that a pattern's event means, after others; its name is declared then. It
/// may come after the others, and not after itself: so they are looked up before its name is
/// declared, though an error of its name comes first.
fn event_parts(
    alloc: Global,
    places: &Places,
    names: &mut NameList,
    event: &TreeEvent,
) -> Result<EventParts, FileFault>
    requires few { length names.old < 8 }
    requires distinct { Distinct names.old }
    ensures { Answers (event_faults (kinds_of places.now) names.old event.now) (λ parts. ResolvedEvent (kinds_of places.now) names.old (plain_event event.now) names.new (event_of event.now parts)) result }
{
    let after = after_mask(names, event.after.as_slice());
    names.declare(alloc, &event.name)?;
    let after = after?;
    let condition = resolve_over_all(alloc, places, event.condition.as_slice())?;
    Ok(EventParts { after, condition })
}

/// The mask of the earlier events that an event comes after.
fn after_mask(earlier: &NameList, listed: &[Spelled]) -> Result<u8, FileFault>
    requires few { length earlier.now < 8 }
    requires distinct { Distinct earlier.now }
    ensures { Judges (listed_faults earlier.now earlier.now [] listed.now) (ListedMask earlier.now (map plain_name listed.now)) result }
{
    let mask = listed_mask(earlier, 0, earlier.len() as u32, listed)?;
    Ok(mask as u8)
}

/// The mask of the locations that a pattern keeps empty.
fn empty_mask(places: &Places, listed: &[Spelled]) -> Result<u128, FileFault>
    ensures { Judges (listed_faults (all_names (kinds_of places.now)) (kinds_of places.now).locations [] listed.now) (ListedMask (kinds_of places.now).locations (map plain_name listed.now)) result }
{
    let first = places.parameters + places.shared;
    listed_mask(&places.names, first, places.names.len() as u32, listed)
}

/// The condition that comparisons over all places mean.
fn resolve_over_all(
    alloc: Global,
    places: &Places,
    comparisons: &[TreeComparison],
) -> Result<Condition, FileFault>
    requires { length comparisons.now ≤ 16 }
    ensures { Answers (condition_faults (in_conditions (kinds_of places.now)) comparisons.now) (ResolvedCondition (all_names (kinds_of places.now)) (map plain_comparison comparisons.now)) result }
{
    resolve_condition(alloc, places, places.names.len() as u32, comparisons)
}
