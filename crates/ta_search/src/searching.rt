//! The search for values with which every pattern is safe.
#![tactic(auto)]

ghost use Rattle.std.specs.Prelude.{◌≡◌, ◌≤◌, ◌<◌, IfOk, false, true};
ghost use Rattle.ta_base.specs.LimitRows.{narrow};
ghost use Rattle.ta_search.specs.Holes.{vector_count};
ghost use Rattle.ta_search.specs.Inside.Beside.{AtHand};
ghost use Rattle.ta_search.specs.Inside.Trying.{vector_at};
ghost use Rattle.ta_search.specs.Searching.{IsSearchEnd, IsTried, LastIsFound};

use crate::beside::{take, try_beside};
use crate::lines::vector_count;
use crate::outcome::{SearchEnd, Tried};
use crate::template::Template;
use crate::terms::Terms;
use crate::vector::{is_found, try_vector};
use std::alloc::{AllocError, Global};
use std::thread::Threads;
use ta_base::List;
use ta_base::limits::MOST_NODES;

/// Tries the vectors of a template in lexicographic order, up to the first with which every pattern
/// is safe, each within the budget. Where there are threads, vectors are tried beside each other;
/// the end is that of one thread which tries them in order.
pub fn search<R: Threads + Sync>(
    rt: &R,
    alloc: Global,
    template: &Template,
    terms: Terms,
) -> Result<SearchEnd, AllocError>
    requires some { 0 < terms.budget.nodes }
    requires limit { terms.budget.nodes ≤ MOST_NODES }
    requires narrow { terms.budget.lazy ≡ false → terms.limits ≡ narrow }
    ensures end { IfOk result (λ end. IsSearchEnd template.now terms end) }
    ensures found { IfOk result (λ end. end.found ≡ true → LastIsFound template.now terms.limits end) }
{
    let count = vector_count(template.holes.as_slice());
    let mut at_hand = try_beside(rt, alloc, template, count, terms)?;
    let mut tried = Vec::new(alloc);
    'vectors: for place in 0..count {
        let next = next_tried(rt, alloc, template, place, terms, &mut at_hand)?;
        let found = is_found(&next.outcome);
        tried.push(next)?;
        if found {
            return Ok(SearchEnd {
                tried: List::from_vec(tried),
                found,
            });
        }
    }
    Ok(SearchEnd {
        tried: List::from_vec(tried),
        found: false,
    })
}

/// The vector of a number, tried: it is at hand, or else it is tried now.
fn next_tried<R: Threads + Sync>(
    rt: &R,
    alloc: Global,
    template: &Template,
    place: u64,
    terms: Terms,
    at_hand: &mut Vec<Option<Tried>>,
) -> Result<Tried, AllocError>
    requires place { place < vector_count template.now.holes }
    requires some { 0 < terms.budget.nodes }
    requires limit { terms.budget.nodes ≤ MOST_NODES }
    requires narrow { terms.budget.lazy ≡ false → terms.limits ≡ narrow }
    requires at_hand { AtHand template.now terms at_hand.old.items }
    ensures tried { IfOk result (λ tried. IsTried template.now terms (vector_at template.now.holes place) tried) }
    ensures at_hand { AtHand template.now terms at_hand.new.items }
{
    match take(at_hand, place) {
        Some(tried) => Ok(tried),
        None => try_vector(rt, alloc, template, place, terms),
    }
}
