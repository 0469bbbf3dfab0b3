//! What the parallel parts of a visit know of one another: a board of atomic numbers.
//!
//! Places order the parts as the sequential visit does: the whole has an interval of numbers, and
//! at a fork each half takes half of it. The board has the least place of a part that decided, how
//! many parts run, and how many nodes each part visited. A part is abandoned as soon as its result
//! cannot affect the verdict: a part before it has decided, or the nodes of the parts before it and
//! its own have exhausted the budget. It then ends as if its budget were spent, but with fewer
//! nodes than it had.
//!
//! Counts of nodes are claimed behind a count of a smaller number, and added to that one when the
//! part ends; they are read by rising number, so no node is ever counted twice. A part for which no
//! count is free is not counted.
//!
//! No proof follows an atomic number, and none has to: a part that was abandoned by mistake costs
//! time and no result (forked.rt).
#![tactic(auto)]

ghost use Rattle.std.specs.Prelude.{◌≡◌, ◌<◌, ◌≤◌, true, false};

use crate::end::TreeEnd;
use crate::work::MOST_FORKS;
use std::alloc::{AllocError, Global};
use std::sync::atomic::{AtomicU64, Ordering};
use ta_words::Element;

/// How a part of a visit ended, what keeps its nodes, and how many nodes it began, those of dropped
/// parts of it included.
#[derive(Drop)]
pub(crate) struct Part<K: Drop> {
    pub end: TreeEnd<Element>,
    pub keeper: K,
    pub begun: u64,
}

/// How many parts run beside the first one at most.
pub(crate) const BESIDE: u64 = 63;

/// How many nodes a part visits before words of it are given to another one.
const EACH: u64 = 16;

/// How many counts of nodes there are: four for each part that may run.
const COUNTS: usize = 256;

/// How many nodes were visited from a place on. Nobody counts where the place is the greatest number.
#[derive(Drop)]
pub(crate) struct Count {
    pub place: AtomicU64,
    pub nodes: AtomicU64,
}

/// What the parts of a visit know of one another. No answer depends on it.
#[derive(Drop)]
pub(crate) struct Board {
    /// The least place of a part that decided: what comes behind that one can't matter any more.
    pub decided: AtomicU64,
    /// How many parts run beside the first one, and how many may.
    pub beside: AtomicU64,
    pub most: u64,
    /// The budget of the visit, and how much of it was spent where.
    pub budget: u64,
    pub counts: Vec<Count>,
}

impl Board {
    /// The board of a visit whose first part runs, and so many parts beside it at most.
    pub fn new(alloc: Global, budget: u64, most: u64) -> Result<Board, AllocError> {
        let mut counts = Vec::new(alloc);
        for number in 0..COUNTS {
            counts.push(Count {
                place: AtomicU64::new(if number == 0 { 0 } else { u64::MAX }),
                nodes: AtomicU64::new(0),
            })?;
        }
        Ok(Board {
            decided: AtomicU64::new(u64::MAX),
            beside: AtomicU64::new(0),
            most,
            budget,
            counts,
        })
    }

    /// The number of a count that nobody has, for a place; too great a number where all are taken.
    /// Counts are taken in behind one of a smaller number, so that no node is ever counted twice.
    fn claim(&self, place: u64, above: usize) -> usize {
        for (number, count) in self.counts.iter().enumerate() {
            let free = u64::MAX;
            if number > above
                && count
                    .place
                    .compare_exchange(free, place, Ordering::SeqCst, Ordering::SeqCst)
                    .is_ok()
            {
                return number;
            }
        }
        COUNTS
    }

    /// Adds nodes to a count.
    fn add(&self, number: usize, nodes: u64) {
        if let Some(count) = self.counts.get(number) {
            let _before = count.nodes.fetch_add(nodes, Ordering::SeqCst);
        }
    }

    /// Gives a count up, and says how many nodes it had.
    fn give_up(&self, number: usize) -> u64 {
        match self.counts.get(number) {
            None => 0,
            Some(count) => {
                let nodes = count.nodes.swap(0, Ordering::SeqCst);
                count.place.store(u64::MAX, Ordering::SeqCst);
                nodes
            }
        }
    }

    /// Whether the nodes that were visited up to a place come to the budget.
    fn is_spent(&self, place: u64) -> bool {
        let mut nodes: u64 = 0;
        for count in &self.counts {
            if count.place.load(Ordering::SeqCst) <= place {
                nodes = nodes.saturating_add(count.nodes.load(Ordering::SeqCst));
            }
        }
        nodes >= self.budget
    }
}

/// Where a part stands in the order of the visit.
#[derive(Clone, Copy)]
pub(crate) struct Watch<'a> {
    pub board: &'a Board,
    /// The part's places begin here, and are so many.
    pub at: u64,
    pub width: u64,
    /// The number of the count of its nodes.
    pub number: usize,
    /// How many nodes count as visited since words were given away.
    pub since: u64,
    /// How often the part may fork. The halves of a fork share what is left.
    pub forks: u64,
    /// Whether the part is never given up.
    pub patient: bool,
}

impl<'a> Watch<'a> {
    /// The watch of a whole visit. A patient one doesn't fork.
    pub fn new(board: &'a Board, patient: bool) -> Watch<'a>
        ensures patient { result.patient ≡ patient }
        ensures forks { result.forks ≤ MOST_FORKS }
        ensures alone { patient ≡ true → result.forks ≡ 0 }
    {
        Watch {
            board,
            at: 0,
            width: u64::MAX,
            number: 0,
            since: EACH - 1,
            forks: if patient { 0 } else { MOST_FORKS },
            patient,
        }
    }

    /// Whether the part can be given up before its next node, behind so many: a part before it
    /// decided, or its nodes and those of the parts before it come to the budget.
    pub fn can_stop(&self, before: u64) -> bool
        ensures { self.now.patient ≡ true → result ≡ false }
    {
        if self.patient {
            return false;
        }
        if before > 0 {
            self.board.add(self.number, 1);
        }
        self.board.decided.load(Ordering::SeqCst) < self.at
            || (before % EACH == 0 && self.board.is_spent(self.at))
    }

    /// Says that the part decides, where it isn't refuted.
    pub fn tell(&self, end: &TreeEnd<Element>) {
        match end {
            TreeEnd::Refuted { .. } => {}
            TreeEnd::Found { .. } | TreeEnd::Spent { .. } | TreeEnd::Overflow { .. } => {
                let _before = self.board.decided.fetch_min(self.at, Ordering::SeqCst);
            }
        }
    }

    /// Whether it is time to look for a free processor, behind so many nodes.
    pub fn looks_around(&self, count: u64) -> bool {
        count.saturating_add(self.since) % EACH == 0
    }

    /// Whether half of the part may run beside the other one. It is counted then.
    pub fn goes_beside(&self) -> bool
        ensures { result ≡ true → 0 < self.now.forks }
    {
        let beside = &self.board.beside;
        if self.forks == 0 || self.width < 2 || beside.load(Ordering::SeqCst) >= self.board.most {
            return false;
        }
        if beside.fetch_add(1, Ordering::SeqCst) < self.board.most {
            return true;
        }
        self.stays();
        false
    }

    /// Says that no half runs beside the other one after all.
    pub fn stays(&self) {
        let _before = self.board.beside.fetch_sub(1, Ordering::SeqCst);
    }

    /// Says that one of two halves ended, of which so many had ended before: where it is the first,
    /// none runs beside the other any more.
    pub fn came_back(&self, ended: &AtomicU64) {
        if ended.fetch_add(1, Ordering::SeqCst) == 0 {
            self.stays();
        }
    }

    /// The watch of the first half of the part, which may fork so often.
    pub fn first_half(&self, forks: u64) -> Watch<'a>
        ensures patient { result.patient ≡ self.now.patient }
        ensures forks { result.forks ≡ forks }
    {
        Watch {
            width: self.width / 2,
            since: 0,
            forks,
            ..*self
        }
    }

    /// The watch of the second half, by the same thread, which may fork so often.
    pub fn second_half(&self, forks: u64) -> Watch<'a>
        ensures patient { result.patient ≡ self.now.patient }
        ensures forks { result.forks ≡ forks }
    {
        Watch {
            at: self.at.saturating_add(self.width / 2),
            width: self.width / 2,
            since: 0,
            forks,
            ..*self
        }
    }

    /// The watch of the second half, beside the first one, which may fork so often: its nodes have a
    /// count of their own.
    pub fn half_beside(&self, forks: u64) -> Watch<'a>
        ensures patient { result.patient ≡ self.now.patient }
        ensures forks { result.forks ≡ forks }
    {
        let half = self.second_half(forks);
        Watch {
            number: self.board.claim(half.at, self.number),
            ..half
        }
    }

    /// Takes the nodes of the second half, which ended, as its own.
    pub fn takes_in(&self, half: Watch<'a>) {
        let nodes = self.board.give_up(half.number);
        self.board.add(self.number, nodes);
    }
}
