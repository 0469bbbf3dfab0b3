//! Candidates as starts: 0 for none, else the number of the event and 1.
#![tactic(auto)]

ghost use Rattle.std.specs.Prelude.{◌≡◌, ◌≤◌, filter, length, not, slice_get};
ghost use Rattle.std.specs.List.{range_with_len};
ghost use Rattle.std.specs.Option.{option_map};
ghost use Rattle.ta_moments.specs.Facts.{candidates, has_later};
ghost use Rattle.ta_moments.specs.Searched.{candidate_of, start_of};

use crate::has_later;
use ta_automaton::Pattern;

/// The candidate of a start: none, or an event.
pub(crate) fn candidate_of(start: u8) -> Option<u32>
    ensures { result ≡ candidate_of start }
{
    if start == 0 {
        None
    } else {
        Some(u32::from(start) - 1)
    }
}

/// The event of this number, from 0, among those that no other comes after.
fn last_event(pattern: &Pattern, number: usize) -> Option<u8>
    requires { length pattern.now.events ≤ 8 }
    ensures { result ≡ slice_get (filter (λ e. not (has_later pattern.now e)) (range_with_len 0 (length pattern.now.events))) number }
{
    let mut passed = 0;
    for event in 0..pattern.events.as_slice().len() {
        if !has_later(pattern, event) {
            if passed == number {
                return Some(event as u8);
            }
            passed += 1;
        }
    }
    None
}

/// The start of the candidate of this number, from 0.
pub(crate) fn start_at(pattern: &Pattern, number: usize) -> Option<u8>
    requires { length pattern.now.events ≤ 8 }
    ensures { result ≡ option_map start_of (slice_get (candidates pattern.now) number) }
{
    if pattern.events.as_slice().is_empty() {
        return if number == 0 { Some(0) } else { None };
    }
    match last_event(pattern, number) {
        None => None,
        Some(event) => Some(event + 1),
    }
}
