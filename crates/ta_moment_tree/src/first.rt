//! The node without facts: the start, and a moment for each event.
//!
//! The rows at the start are those of a schema without its fall guards. The candidate is the
//! event at the end: every event that it does not come after anyway is put below it.
#![tactic(auto)]

ghost use Rattle.std.specs.Prelude.{ℕ, ◌+◌, ◌<◌, ◌≤◌, ◌≡◌, ◌++◌, [], IfOk, OnOk, flat_map, filter, length, map, slice_get, List, Option};
ghost use Rattle.std.specs.List.{range_with_len};
ghost use Rattle.ta_base.specs.Masks.{In};
ghost use Rattle.ta_encode.specs.Unknowns.{start_meanings};
ghost use Rattle.ta_moments.specs.Facts.{candidates, comes_after};
ghost use Rattle.ta_moments.specs.Moments.{Point as KnownPoint, below, end_vector, unknowns_at_first, event_vector, is_beside, rows_at_start, rows_of_after, rows_of_end, rows_of_event};
ghost use Rattle.ta_moment_tree.specs.Draft.{IsDraft};
ghost use Rattle.ta_moment_tree.specs.Forms.{SmallVector, forms_of, vector_of};
ghost use Rattle.ta_moments.specs.Laws.{Speaks};
ghost use Rattle.ta_moment_tree.specs.Moments.{moments_of};
ghost use Rattle.ta_moment_tree.specs.Plan.{IsPlan};
ghost use Rattle.ta_moment_tree.specs.Rows.{AddsForms};

use crate::draft::Draft;
use crate::moment::Moment;
use crate::plan::{Plan, is_in, moving_rules};
use crate::rows::{push_below, push_counters, push_event};
use crate::vector::fresh;
use std::alloc::{AllocError, Global};
use ta_automaton::{Pattern, Task};
use ta_base::List;
use ta_encode::{Encoded, Meaning, encode_start};
use ta_linear::{Form, Row, System};

/// The unknowns and the rows at the start.
fn start(alloc: Global, task: Task<'_>) -> Result<(List<Meaning>, Vec<Row>), AllocError>
    ensures meanings { IfOk result (λ r. r.0 ≡ start_meanings task.entry.automaton.now task.entry.pattern.now) }
    ensures rows { IfOk result (λ r. forms_of r.1.items ≡ rows_at_start task.entry.automaton.now task.entry.pattern.now) }
{
    let Encoded { system, meanings } = encode_start(alloc, task)?;
    let System { unknowns: _, rows } = system;
    Ok((meanings, rows.into_vec()))
}

/// The vector of an event.
fn event_vector(plan: &Plan, event: usize) -> Result<Vec<Form>, AllocError>
    requires plan { IsPlan plan.now }
    requires event { event < 8 }
    ensures value { IfOk result (λ forms. vector_of forms.items ≡ event_vector plan.now.task.automaton.now plan.now.task.pattern.now event) }
    ensures short { IfOk result (λ forms. length forms.items ≤ length plan.now.task.automaton.now.rules) }
{
    let rules = plan.task.automaton.rules.as_slice().len();
    let moving = plan.moving.as_slice();
    let starts = plan.starts.as_slice().len();
    let first = starts + event * moving.len();
    let forms = fresh(plan.alloc, rules, first as u32, moving, &[], &[])?;
    Ok(forms)
}

/// The vector of the end: the candidate's, or no firing.
fn end_vector(plan: &Plan, candidate: Option<u32>) -> Result<Vec<Form>, AllocError>
    requires plan { IsPlan plan.now }
    requires candidate { In candidate (candidates plan.now.task.pattern.now) }
    ensures value { IfOk result (λ forms. vector_of forms.items ≡ end_vector plan.now.task.automaton.now plan.now.task.pattern.now candidate) }
    ensures short { IfOk result (λ forms. length forms.items ≤ length plan.now.task.automaton.now.rules) }
{
    match candidate {
        None => Ok(Vec::new(plan.alloc)),
        Some(event) => event_vector(plan, event as usize),
    }
}

/// The moments of the events.
fn event_moments(plan: &Plan) -> Result<Vec<Moment>, AllocError>
    requires { IsPlan plan.now }
    ensures { IfOk result (λ moments. moments_of moments.items ≡ map (λ e. KnownPoint (event_vector plan.now.task.automaton.now plan.now.task.pattern.now e)) (range_with_len 0 (length plan.now.task.pattern.now.events))) }
{
    let mut moments = Vec::new(plan.alloc);
    for event in 0..plan.task.pattern.events.as_slice().len() {
        let vector = event_vector(plan, event)?;
        moments.push(Moment::Point(vector))?;
    }
    Ok(moments)
}

/// The rows of an event.
fn push_one_event(plan: &Plan, event: usize, rows: &mut Vec<Row>) -> Result<(), AllocError>
    requires plan { IsPlan plan.now }
    requires event { event < 8 }
    ensures { OnOk result (AddsForms (rows_of_event plan.now.task.automaton.now plan.now.task.pattern.now event) rows.old.items rows.new.items) }
{
    let vector = event_vector(plan, event)?;
    push_counters(plan, vector.as_slice(), rows)?;
    push_event(plan, vector.as_slice(), event, rows)?;
    Ok(())
}

/// The rows of each event.
fn push_events(plan: &Plan, rows: &mut Vec<Row>) -> Result<(), AllocError>
    requires { IsPlan plan.now }
    ensures { OnOk result (AddsForms (flat_map (rows_of_event plan.now.task.automaton.now plan.now.task.pattern.now) (range_with_len 0 (length plan.now.task.pattern.now.events))) rows.old.items rows.new.items) }
{
    for event in 0..plan.task.pattern.events.as_slice().len() {
        push_one_event(plan, event, rows)?;
    }
    Ok(())
}

/// An event is below a vector.
fn push_beneath(
    plan: &Plan,
    event: usize,
    above: &[Form],
    rows: &mut Vec<Row>,
) -> Result<(), AllocError>
    requires plan { IsPlan plan.now }
    requires event { event < length plan.now.task.pattern.now.events }
    requires above { SmallVector 3 (vector_of above.now) }
    requires speaks { (r : ℕ) → Speaks (unknowns_at_first plan.now.task.automaton.now plan.now.task.pattern.now) (vector_of above.now r) }
    ensures { OnOk result (AddsForms (below plan.now.task.automaton.now plan.now.task.pattern.now (unknowns_at_first plan.now.task.automaton.now plan.now.task.pattern.now) (event_vector plan.now.task.automaton.now plan.now.task.pattern.now event) (vector_of above.now)) rows.old.items rows.new.items) }
{
    let beneath = event_vector(plan, event)?;
    push_below(plan, beneath.as_slice(), above, rows)?;
    Ok(())
}

/// Whether an event comes after another.
pub(crate) fn comes_after(pattern: &Pattern, event: usize, other: usize) -> bool
    ensures { result ≡ comes_after (slice_get pattern.now.events event) other }
{
    match pattern.events.as_slice().get(event) {
        None => false,
        Some(event) => is_in(u128::from(event.after), other),
    }
}

/// The events that an event comes after are below its vector.
fn push_earlier(
    plan: &Plan,
    event: usize,
    above: &[Form],
    rows: &mut Vec<Row>,
) -> Result<(), AllocError>
    requires plan { IsPlan plan.now }
    requires event { event < length plan.now.task.pattern.now.events }
    requires above { vector_of above.now ≡ event_vector plan.now.task.automaton.now plan.now.task.pattern.now event }
    ensures { OnOk result (AddsForms (rows_of_after plan.now.task.automaton.now plan.now.task.pattern.now event) rows.old.items rows.new.items) }
{
    for other in 0..event {
        if comes_after(plan.task.pattern, event, other) {
            push_beneath(plan, other, above, rows)?;
        }
    }
    Ok(())
}

/// The events that an event comes after are below it.
fn push_after(plan: &Plan, event: usize, rows: &mut Vec<Row>) -> Result<(), AllocError>
    requires plan { IsPlan plan.now }
    requires event { event < length plan.now.task.pattern.now.events }
    ensures { OnOk result (AddsForms (rows_of_after plan.now.task.automaton.now plan.now.task.pattern.now event) rows.old.items rows.new.items) }
{
    let above = event_vector(plan, event)?;
    push_earlier(plan, event, above.as_slice(), rows)?;
    Ok(())
}

/// The same for each event.
fn push_afters(plan: &Plan, rows: &mut Vec<Row>) -> Result<(), AllocError>
    requires { IsPlan plan.now }
    ensures { OnOk result (AddsForms (flat_map (rows_of_after plan.now.task.automaton.now plan.now.task.pattern.now) (range_with_len 0 (length plan.now.task.pattern.now.events))) rows.old.items rows.new.items) }
{
    for event in 0..plan.task.pattern.events.as_slice().len() {
        push_after(plan, event, rows)?;
    }
    Ok(())
}

/// Whether an event is to be put below the end.
fn is_beside(pattern: &Pattern, candidate: Option<u32>, event: usize) -> bool
    ensures { result ≡ is_beside pattern.now candidate event }
{
    match candidate {
        None => false,
        Some(last) => { event != last as usize && !comes_after(pattern, last as usize, event) }
    }
}

/// All other events are below the end.
fn push_ends(
    plan: &Plan,
    candidate: Option<u32>,
    end: &[Form],
    rows: &mut Vec<Row>,
) -> Result<(), AllocError>
    requires plan { IsPlan plan.now }
    requires candidate { In candidate (candidates plan.now.task.pattern.now) }
    requires end { vector_of end.now ≡ end_vector plan.now.task.automaton.now plan.now.task.pattern.now candidate }
    ensures { OnOk result (AddsForms (rows_of_end plan.now.task.automaton.now plan.now.task.pattern.now candidate) rows.old.items rows.new.items) }
{
    for event in 0..plan.task.pattern.events.as_slice().len() {
        if is_beside(plan.task.pattern, candidate, event) {
            push_beneath(plan, event, end, rows)?;
        }
    }
    Ok(())
}

/// How many unknowns the node without facts has; it has a moment for each event.
fn unknown_count(plan: &Plan, moments: &[Moment]) -> usize
    requires plan { IsPlan plan.now }
    requires moments { length moments.now ≡ length plan.now.task.pattern.now.events }
    ensures value { result ≡ unknowns_at_first plan.now.task.automaton.now plan.now.task.pattern.now }
    ensures few { result ≤ 8352 }
{
    let moving = plan.moving.as_slice();
    let starts = plan.starts.as_slice().len();
    starts + moments.len() * moving.len()
}

/// The rows after those at the start.
fn push_after_start(
    plan: &Plan,
    candidate: Option<u32>,
    end: &[Form],
    rows: &mut Vec<Row>,
) -> Result<(), AllocError>
    requires plan { IsPlan plan.now }
    requires candidate { In candidate (candidates plan.now.task.pattern.now) }
    requires end { vector_of end.now ≡ end_vector plan.now.task.automaton.now plan.now.task.pattern.now candidate }
    ensures { OnOk result (AddsForms (flat_map (rows_of_event plan.now.task.automaton.now plan.now.task.pattern.now) (range_with_len 0 (length plan.now.task.pattern.now.events))
        ++ (flat_map (rows_of_after plan.now.task.automaton.now plan.now.task.pattern.now) (range_with_len 0 (length plan.now.task.pattern.now.events))
        ++ rows_of_end plan.now.task.automaton.now plan.now.task.pattern.now candidate)) rows.old.items rows.new.items) }
{
    push_events(plan, rows)?;
    push_afters(plan, rows)?;
    push_ends(plan, candidate, end, rows)?;
    Ok(())
}

/// The node without facts, from the rows at the start.
fn first_draft(plan: &Plan, candidate: Option<u32>, mut rows: Vec<Row>) -> Result<Draft, AllocError>
    requires plan { IsPlan plan.now }
    requires candidate { In candidate (candidates plan.now.task.pattern.now) }
    requires rows { forms_of rows.items ≡ rows_at_start plan.now.task.automaton.now plan.now.task.pattern.now }
    ensures { IfOk result (λ draft. (silent : List ℕ) → IsDraft plan.now.task.automaton.now plan.now.task.pattern.now silent candidate [] draft) }
{
    let end = end_vector(plan, candidate)?;
    let moments = event_moments(plan)?;
    push_after_start(plan, candidate, end.as_slice(), &mut rows)?;
    let unknowns = unknown_count(plan, moments.as_slice());
    Ok(Draft {
        unknowns,
        end,
        moments,
        rows,
    })
}

/// A pattern's plan, and the node without facts.
pub(crate) fn first<'a>(
    alloc: Global,
    task: Task<'a>,
    candidate: Option<u32>,
) -> Result<(Plan<'a>, Draft), AllocError>
    requires { In candidate (candidates task.pattern.now) }
    ensures task { IfOk result (λ r. r.0.task ≡ task.entry) }
    ensures plan { IfOk result (λ r. IsPlan r.0) }
    ensures draft { IfOk result (λ r. (silent : List ℕ) → IsDraft task.entry.automaton.now task.entry.pattern.now silent candidate [] r.1) }
{
    let (starts, rows) = start(alloc, task)?;
    let moving = moving_rules(alloc, task.automaton, task.pattern)?;
    let plan = Plan {
        alloc,
        task,
        moving,
        starts,
    };
    let draft = first_draft(&plan, candidate, rows)?;
    Ok((plan, draft))
}
