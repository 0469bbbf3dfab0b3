//! The endings of patterns.
#![tactic(auto)]

ghost use Rattle.std.specs.Prelude.{ℕ, ◌≤◌, ◌<◌, ◌≡◌, ◌⊎◌, ◌↔◌, [], ◌∷◌, length, slice_get, Some, IsBitSet, IfOk};
ghost use Rattle.std.specs.List.{AllByRecursion};
ghost use Rattle.ta_automaton.specs.declared.pattern.Pattern.{Pattern};
ghost use Rattle.ta_rest.specs.Endings.{Endings, FewEvents, IsEnding, LastMoved, RestAdded, events_below};

use std::alloc::{AllocError, Global};
use ta_automaton::{Condition, Event, Pattern};
use ta_base::{List, Text};

/// The endings of patterns, in order.
pub fn endings_of(alloc: Global, patterns: Vec<Pattern>) -> Result<Vec<Pattern>, AllocError>
    requires { AllByRecursion FewEvents patterns.items }
    ensures { IfOk result (λ endings. Endings patterns.items endings.items) }
{
    let mut rest = patterns;
    let mut endings = Vec::new(alloc);
    'patterns: while !rest.is_empty() {
        let pattern = rest.remove(0);
        endings.push(ending_of(alloc, pattern)?)?;
    }
    Ok(endings)
}

/// The ending of a pattern.
fn ending_of(alloc: Global, pattern: Pattern) -> Result<Pattern, AllocError>
    requires { FewEvents pattern }
    ensures { IfOk result (λ ending. IsEnding pattern ending) }
{
    let events = ending_events(alloc, pattern.events.into_vec())?;
    Ok(Pattern {
        name: pattern.name,
        start: pattern.start,
        empty: pattern.empty,
        events: List::from_vec(events),
    })
}

/// Events whose last one comes after all others; where there is none, one that always happens.
fn ending_events(alloc: Global, events: Vec<Event>) -> Result<Vec<Event>, AllocError>
    requires { length events.items ≤ 8 }
    ensures { IfOk result (λ new. LastMoved events.items new.items ⊎ RestAdded events.items new.items) }
{
    let mut events = events;
    match events.pop() {
        Some(last) => {
            let after = mask_below(events.len());
            events.push(Event {
                name: last.name,
                after,
                condition: last.condition,
            })?;
            Ok(events)
        }
        None => {
            events.push(rest_event(alloc)?)?;
            Ok(events)
        }
    }
}

/// The mask of the events below a number.
fn mask_below(number: usize) -> u8
    requires { number < 8 }
    ensures { result ≡ events_below number }
{
    (1 << number) - 1
}

/// An event named `rest` with an empty condition.
fn rest_event(alloc: Global) -> Result<Event, AllocError>
    ensures { IfOk result (λ event. RestAdded [] (event ∷ [])) }
{
    Ok(Event {
        name: Text::from_string(String::from_str(alloc, "rest")?),
        after: 0,
        condition: Condition {
            comparisons: List::from_vec(Vec::new(alloc)),
        },
    })
}

/// The mask of the patterns that have no events: bit k for pattern k.
pub fn without_events(patterns: &[Pattern]) -> u64
    requires { length patterns.now ≤ 64 }
    ensures { (k : ℕ) → IsBitSet result k ↔ ((p : Pattern) × (slice_get patterns.now k ≡ Some p) × (p.events ≡ [])) }
{
    let mut mask: u64 = 0;
    for (number, pattern) in patterns.iter().enumerate() {
        mask = with_pattern(mask, number as u32, pattern);
    }
    mask
}

/// The mask, with a pattern's number if the pattern has no events.
fn with_pattern(mask: u64, number: u32, pattern: &Pattern) -> u64
    requires { number < 64 }
    ensures { (k : ℕ) → IsBitSet result k ↔ (IsBitSet mask k ⊎ ((k ≡ number) × (pattern.now.events ≡ []))) }
{
    if pattern.events.as_slice().is_empty() {
        return mask | (1 << number);
    }
    mask
}
