//! What the solving of systems took.
#![tactic(auto)]

/// What the solving of the systems of a branch took, counted to be measured: no answer depends on it.
/// Each count stands still at its type's end.
#[derive(Clone, Copy, Debug, Default, PartialEq, Eq)]
pub struct Effort {
    /// The pivots that were made, of systems that came to an end. Those through which only new rows
    /// were carried are not counted.
    pub pivots: u64,
    /// The systems that began with their slacks.
    pub begun: u64,
    /// The systems that came to an end over full dictionaries.
    pub full: u64,
    /// The dictionaries that were given up since all together held too much.
    pub given_up: u64,
}

impl Effort {
    /// Counts a system that came to an end, by so many pivots.
    pub(crate) fn add(&mut self, pivots: usize) {
        self.pivots = self.pivots.saturating_add(pivots as u64);
    }

    /// Counts a system that came to an end over full dictionaries, by so many pivots.
    pub(crate) fn add_full(&mut self, pivots: usize) {
        self.add(pivots);
        self.full = self.full.saturating_add(1);
    }

    /// Counts a system that begins with its slacks.
    pub(crate) fn begin(&mut self) {
        self.begun = self.begun.saturating_add(1);
    }

    /// Counts a dictionary that is given up.
    pub(crate) fn give_up(&mut self) {
        self.given_up = self.given_up.saturating_add(1);
    }
}
