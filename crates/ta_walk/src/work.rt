//! How many nodes were begun.
//!
//! A budget bounds the nodes of the answer. The search may begin more: parts whose results are
//! dropped, and a second pass. The bound on all of them is a bound on this count.
#![tactic(auto)]

ghost use Rattle.std.specs.Prelude.{◌≡◌, ◌+◌, ◌-◌, ◌^◌, min};

/// How many forks a search in parallel makes at most.
pub const MOST_FORKS: u64 = 65_534;

/// How many nodes were begun. A node counts where its system is solved (`solve_node`), and nowhere
/// else. The count stands still at 2^64 - 1.
#[derive(Drop)]
pub struct Work {
    pub begun: u64,
}

impl Work {
    /// No node so far.
    pub fn new() -> Work
        ensures { result.begun ≡ 0 }
    {
        Work { begun: 0 }
    }

    /// Counts so many nodes more.
    pub(crate) fn add(&mut self, nodes: u64)
        ensures { self.new.begun ≡ min (self.old.begun + nodes) (2 ^ 64 - 1) }
    {
        self.begun = self.begun.saturating_add(nodes);
    }
}
