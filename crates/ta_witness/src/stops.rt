//! The stops of a run, sorted.
//!
//! A moment adds a stop, a last use the two around its step. A new stop goes in front of the first
//! one in which no rule has fired less often than in it; as all are comparable, that sorts them.
//! Moments are added from the last to the first, so of stops with the same counts the one of the
//! lower number comes first, as a run marks its events.
#![tactic(auto)]

ghost use Rattle.std.specs.Prelude.{◌≡◌, ◌≤◌, IfErr, IfOk, OnOk, [], length, map};
ghost use Rattle.std.specs.List.{AllByRecursion};
ghost use Rattle.ta_witness.specs.Given.{MomentStays, VectorStays};
ghost use Rattle.ta_witness.specs.Inside.Stops.{MomentFault, MomentWithin, MomentsFault, Places, VectorFault, VectorWithin, form_values, is_below, mark_at, moment_shapes, moving_counts, shape, shapes_from, with_shape, with_shapes};

use crate::WitnessFault;
use crate::stop::Stop;
use crate::values::{counts_at, number_at};
use std::alloc::{AllocError, Global};
use ta_automaton::{Automaton, Pattern};
use ta_linear::Form;
use ta_moment_tree::Moment;

/// Whether some rule fired less often.
fn is_below(before: &[i128], after: &[i128]) -> bool
    ensures { result ≡ is_below before.now after.now }
{
    for rule in 0..after.len() {
        if number_at(before, rule) < number_at(after, rule) {
            return true;
        }
    }
    false
}

/// Where a stop with these counts goes.
fn place_of(stops: &[Stop], counts: &[i128]) -> usize
    ensures { Places result counts.now stops.now }
{
    for (number, stop) in stops.iter().enumerate() {
        if !is_below(stop.counts.as_slice(), counts) {
            return number;
        }
    }
    stops.len()
}

/// Adds a stop in front of the first that isn't below it.
fn add_stop(stop: Stop, stops: &mut Vec<Stop>) -> Result<(), AllocError>
    ensures { OnOk result (map shape stops.new.items ≡ with_shape (shape stop) (map shape stops.old.items)) }
{
    let place = place_of(stops.as_slice(), stop.counts.as_slice());
    stops.insert(place, stop)?;
    Ok(())
}

/// The event that happens at a moment.
fn mark_at(pattern: &Pattern, number: usize) -> Option<u32>
    requires { length pattern.now.events ≤ 32 }
    ensures { result ≡ mark_at pattern.now number }
{
    if number < pattern.events.as_slice().len() {
        Some(number as u32)
    } else {
        None
    }
}

/// Adds the stop of a vector.
fn add_vector(
    alloc: Global,
    automaton: &Automaton,
    pattern: &Pattern,
    forms: &[Form],
    mark: Option<u32>,
    values: &[i128],
    stops: &mut Vec<Stop>,
) -> Result<(), WitnessFault>
    requires { VectorWithin (length values.now) forms.now }
    ensures added { OnOk result (map shape stops.new.items ≡ with_shape (moving_counts automaton.now pattern.now (form_values values.now forms.now), mark) (map shape stops.old.items)) }
    ensures stays { OnOk result (VectorStays values.now forms.now) }
    ensures fault { IfErr result (VectorFault values.now forms.now) }
{
    let counts = counts_at(alloc, automaton, pattern, forms, values)?;
    add_stop(Stop { counts, mark }, stops)?;
    Ok(())
}

/// Adds the stops of a moment.
fn add_moment(
    alloc: Global,
    automaton: &Automaton,
    pattern: &Pattern,
    number: usize,
    moment: &Moment,
    values: &[i128],
    stops: &mut Vec<Stop>,
) -> Result<(), WitnessFault>
    requires few { length pattern.now.events ≤ 32 }
    requires within { MomentWithin (length values.now) moment.now }
    ensures added { OnOk result (map shape stops.new.items ≡ with_shapes (moment_shapes automaton.now pattern.now values.now number moment.now) (map shape stops.old.items)) }
    ensures stays { OnOk result (MomentStays values.now moment.now) }
    ensures fault { IfErr result (MomentFault values.now moment.now) }
{
    match moment {
        Moment::Point(forms) => {
            let mark = mark_at(pattern, number);
            add_vector(
                alloc,
                automaton,
                pattern,
                forms.as_slice(),
                mark,
                values,
                stops,
            )
        }
        Moment::Pair(before, after) => {
            add_vector(
                alloc,
                automaton,
                pattern,
                after.as_slice(),
                None,
                values,
                stops,
            )?;
            add_vector(
                alloc,
                automaton,
                pattern,
                before.as_slice(),
                None,
                values,
                stops,
            )
        }
    }
}

/// The stops of some moments, in order.
pub(crate) fn stops_of(
    alloc: Global,
    automaton: &Automaton,
    pattern: &Pattern,
    moments: &[Moment],
    values: &[i128],
) -> Result<Vec<Stop>, WitnessFault>
    requires few { length pattern.now.events ≤ 32 }
    requires within { AllByRecursion (MomentWithin (length values.now)) moments.now }
    ensures made { IfOk result (λ stops. map shape stops.items ≡ with_shapes (shapes_from automaton.now pattern.now values.now 0 moments.now) []) }
    ensures stays { OnOk result (AllByRecursion (MomentStays values.now) moments.now) }
    ensures fault { IfErr result (MomentsFault values.now moments.now) }
{
    let mut stops = Vec::new(alloc);
    let mut left = moments.len();
    while left > 0 {
        left -= 1;
        add_moment(
            alloc,
            automaton,
            pattern,
            left,
            &moments[left],
            values,
            &mut stops,
        )?;
    }
    Ok(stops)
}
