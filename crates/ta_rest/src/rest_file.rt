//! Files whose runs all reach a deadlock, with the endings of their patterns.
#![tactic(auto)]

ghost use Rattle.std.specs.Prelude.{◌≡◌};
ghost use Rattle.std.specs.List.{AllByRecursion};
ghost use Rattle.ta_scope.specs.LongerCycles.{LoopsAlone, LoopsAlone-prop};
ghost use Rattle.ta_rest.specs.Endings.{ComesLast, EachComesLast-prop};

use ta_scope::ScopedFile;

/// A file whose automaton has no cycles but self-loops, with the endings of its patterns: in each
/// the last event comes after all its other events. Bit k of `added` says that pattern k had no
/// events, so that its one event, `rest`, was added.
#[derive(Drop)]
pub struct RestFile {
    pub ending: ScopedFile,
    pub added: u64,
    pub ghost loops_alone: { LoopsAlone ending.file.automaton } by { LoopsAlone-prop ending.file.automaton },
    pub ghost come_last: { AllByRecursion ComesLast ending.file.patterns } by { EachComesLast-prop ending.file.patterns },
}

impl RestFile {
    /// The file with the endings as its patterns.
    pub fn ending(&self) -> &ScopedFile
        ensures { result.now ≡ self.now.ending }
    {
        &self.ending
    }

    /// The mask of the patterns that got an event.
    pub fn added(&self) -> u64
        ensures { result ≡ self.now.added }
    {
        self.added
    }
}
