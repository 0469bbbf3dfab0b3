//! Tries vectors of a template in parallel.
//!
//! At most four parts each take the next number from a board, up to that of a safe vector: with
//! halves of the list one part would try vectors far behind a safe one. What comes of a vector
//! depends on no other, so results are put at their numbers, and `search` goes over all numbers in
//! order: it takes what is at hand and tries what is not. So no proof follows the board, and the
//! end is that of one thread. Where there is no memory for a vector, none behind it is tried in
//! parallel, and it is tried again alone.
//!
//! Cost: at worst four times the threads of a walk, since each vector's walk forks too, and three
//! vectors tried in vain.
#![tactic(auto)]

ghost use Rattle.std.specs.Prelude.{◌≡◌, ◌≤◌, ◌<◌, IfOk, IfSome, false};
ghost use Rattle.std.specs.List.{AllByRecursion};
ghost use Rattle.ta_base.specs.LimitRows.{narrow};
ghost use denote.Param.Send.{IsSync};
ghost use Rattle.ta_search.specs.declared.template.Template.{Template};
ghost use Rattle.ta_search.specs.Holes.{vector_count};
ghost use Rattle.ta_search.specs.Inside.Beside.{AtHand, IsPlaced};
ghost use Rattle.ta_search.specs.Inside.Trying.{vector_at};
ghost use Rattle.ta_search.specs.Searching.{IsTried};
ghost use Rattle.ta_verdict.specs.declared.budget.Budget.{Budget};

use crate::outcome::Tried;
use crate::template::Template;
use crate::terms::Terms;
use crate::vector::{is_found, try_vector};
use std::alloc::{AllocError, Global};
use std::sync::atomic::{AtomicU64, Ordering};
use std::thread::{Threads, join};
use ta_base::limits::MOST_NODES;
use ta_walk::most_beside;

/// In how many parts vectors are tried at most.
const MOST_PARTS: u64 = 4;

/// A vector that was tried, behind its number.
#[derive(Drop)]
pub(crate) struct Placed {
    pub place: u64,
    pub tried: Tried,
}

/// What the parts of a search know of one another. No answer depends on it.
#[derive(Drop)]
pub(crate) struct Board {
    /// How many vectors there are.
    pub count: u64,
    /// The number of the first vector that no part took yet.
    pub next: AtomicU64,
    /// From this number on no vector is tried any more: the search ends before it.
    pub end: AtomicU64,
}

impl Board {
    /// The board of a search of so many vectors, of which none is taken.
    fn new(count: u64) -> Board
        ensures { result.count ≡ count }
    {
        Board {
            count,
            next: AtomicU64::new(0),
            end: AtomicU64::new(count),
        }
    }

    /// Takes the next vector, unless none is left that matters.
    fn take(&self) -> Option<u64>
        ensures { IfSome result (λ place. place < self.now.count) }
    {
        let place = self.next.fetch_add(1, Ordering::SeqCst);
        if place < self.count && place < self.end.load(Ordering::SeqCst) {
            Some(place)
        } else {
            None
        }
    }

    /// Says that the search ends with the vector of a number, or that there was no memory for it.
    fn end_at(&self, place: u64) {
        let _before = self.end.fetch_min(place, Ordering::SeqCst);
    }
}

/// Tries vectors of a template beside each other, where there are several and processors for them, in
/// four parts at most. What comes of each stands at its number.
pub(crate) fn try_beside<R: Threads + Sync>(
    rt: &R,
    alloc: Global,
    template: &Template,
    count: u64,
    terms: Terms,
) -> Result<Vec<Option<Tried>>, AllocError>
    requires count { count ≡ vector_count template.now.holes }
    requires some { 0 < terms.budget.nodes }
    requires limit { terms.budget.nodes ≤ MOST_NODES }
    requires narrow { terms.budget.lazy ≡ false → terms.limits ≡ narrow }
    ensures { IfOk result (λ places. AtHand template.now terms places.items) }
{
    let parts = (1 + most_beside(rt)).min(MOST_PARTS).min(count);
    if parts < 2 {
        return Ok(Vec::new(alloc));
    }
    let board = Board::new(count);
    let placed = try_parts(rt, alloc, template, &board, terms, parts)?;
    in_places(alloc, count, placed)
}

/// Tries vectors in so many parts beside each other.
fn try_parts<R: Threads + Sync>(
    rt: &R,
    alloc: Global,
    template: &Template,
    board: &Board,
    terms: Terms,
    parts: u64,
) -> Result<Vec<Placed>, AllocError>
    requires count { board.now.count ≡ vector_count template.now.holes }
    requires some { 0 < terms.budget.nodes }
    requires limit { terms.budget.nodes ≤ MOST_NODES }
    requires narrow { terms.budget.lazy ≡ false → terms.limits ≡ narrow }
    ensures { IfOk result (λ placed. AllByRecursion (IsPlaced template.now terms) placed.items) }
{
    if parts < 2 {
        return Ok(try_part(rt, alloc, template, board, terms));
    }
    let others = parts - 1;
    let back = move || -> Result<Vec<Placed>, AllocError>
        requires { IsSync R.row × (board.now.count ≡ vector_count template.now.holes) × (0 < terms.budget.nodes) × (terms.budget.nodes ≤ MOST_NODES) × (terms.budget.lazy ≡ false → terms.limits ≡ narrow) }
        ensures { IfOk result (λ placed. AllByRecursion (IsPlaced template.entry.now terms) placed.items) }
    { try_parts(rt, alloc, template, board, terms, others) };
    let front = move || -> Vec<Placed>
        requires { IsSync R.row × (board.now.count ≡ vector_count template.now.holes) × (0 < terms.budget.nodes) × (terms.budget.nodes ≤ MOST_NODES) × (terms.budget.lazy ≡ false → terms.limits ≡ narrow) }
        ensures { AllByRecursion (IsPlaced template.entry.now terms) result.items }
    { try_part(rt, alloc, template, board, terms) };
    let (rest, mut placed) = join(rt, back, front);
    placed.append(&mut rest?)?;
    Ok(placed)
}

/// Tries one vector after the other, each the first that no part took, until none is left that matters.
/// Where there is no memory for a vector, it is left out.
fn try_part<R: Threads + Sync>(
    rt: &R,
    alloc: Global,
    template: &Template,
    board: &Board,
    terms: Terms,
) -> Vec<Placed>
    requires count { board.now.count ≡ vector_count template.now.holes }
    requires some { 0 < terms.budget.nodes }
    requires limit { terms.budget.nodes ≤ MOST_NODES }
    requires narrow { terms.budget.lazy ≡ false → terms.limits ≡ narrow }
    ensures { AllByRecursion (IsPlaced template.now terms) result.items }
{
    let mut placed = Vec::new(alloc);
    'vectors: for _ in 0..board.count {
        let Some(place) = board.take() else {
            return placed;
        };
        let goes_on = add_tried(rt, alloc, template, place, terms, &mut placed).unwrap_or(false);
        if !goes_on {
            board.end_at(place);
        }
    }
    placed
}

/// Tries the vector of a number and adds it to others. Whether the search goes on behind it.
fn add_tried<R: Threads + Sync>(
    rt: &R,
    alloc: Global,
    template: &Template,
    place: u64,
    terms: Terms,
    placed: &mut Vec<Placed>,
) -> Result<bool, AllocError>
    requires place { place < vector_count template.now.holes }
    requires some { 0 < terms.budget.nodes }
    requires limit { terms.budget.nodes ≤ MOST_NODES }
    requires narrow { terms.budget.lazy ≡ false → terms.limits ≡ narrow }
    requires placed { AllByRecursion (IsPlaced template.now terms) placed.old.items }
    ensures { AllByRecursion (IsPlaced template.now terms) placed.new.items }
{
    let tried = try_vector(rt, alloc, template, place, terms)?;
    let goes_on = !is_found(&tried.outcome);
    placed.push(Placed { place, tried })?;
    Ok(goes_on)
}

/// So many places, each with the vector of its number, where that was tried.
fn in_places(
    alloc: Global,
    count: u64,
    placed: Vec<Placed>,
) -> Result<Vec<Option<Tried>>, AllocError>
    ensures { (t : Template) (terms : Terms) → AllByRecursion (IsPlaced t terms) placed.items → IfOk result (λ places. AtHand t terms places.items) }
{
    let mut places = empty_places(alloc, count)?;
    'placed: for Placed { place, tried } in placed {
        put(&mut places, place, tried);
    }
    Ok(places)
}

/// So many empty places.
fn empty_places(alloc: Global, count: u64) -> Result<Vec<Option<Tried>>, AllocError>
    ensures { IfOk result (λ places. (t : Template) (terms : Terms) → AtHand t terms places.items) }
{
    let mut places = Vec::new(alloc);
    'numbers: for _ in 0..count {
        places.push(None)?;
    }
    Ok(places)
}

/// Puts a vector that was tried to its place.
fn put(places: &mut Vec<Option<Tried>>, place: u64, tried: Tried)
    ensures { (t : Template) (terms : Terms) → AtHand t terms places.old.items → IsTried t terms (vector_at t.holes place) tried → AtHand t terms places.new.items }
{
    if let Some(slot) = places.get_mut(place as usize) {
        *slot = Some(tried);
    }
}

/// Takes the vector of a number, where it was tried.
pub(crate) fn take(places: &mut Vec<Option<Tried>>, place: u64) -> Option<Tried>
    ensures is { (t : Template) (terms : Terms) → AtHand t terms places.old.items → IfSome result (λ tried. IsTried t terms (vector_at t.holes place) tried) }
    ensures left { (t : Template) (terms : Terms) → AtHand t terms places.old.items → AtHand t terms places.new.items }
{
    places.get_mut(place as usize)?.take()
}
