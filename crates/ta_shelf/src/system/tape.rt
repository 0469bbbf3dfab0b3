//! What a shelf over the real files logs and counts.
#![tactic(auto)]

ghost use Rattle.std.specs.Prelude.{◌≡◌, ◌++◌, ◌∷◌, [], length, Ok, Err};
ghost use Rattle.ta_shelf.specs.Calls.{Reads, Puts, filled};
ghost use Rattle.ta_shelf.specs.Compare.{asks_nothing, CompareFailsOnlyFaulted};
ghost use Rattle.ta_shelf.specs.Counts.{Faulted};
ghost use Rattle.ta_shelf.specs.Place.{asks_place};
ghost use Rattle.ta_shelf.specs.Put.{PutFailsOnlyFaulted};
ghost use Rattle.ta_shelf.specs.Shelf.{FailsOnlyFaulted};

use crate::entry::Step;
use crate::fault::{PutFault, ShelfFault};
use crate::log::Log;
use std::io::{Error, ErrorKind};

/// The calls so far, and how many of them failed, up to the greatest `u64`.
#[derive(Drop)]
pub struct Tape {
    log: Log,
    faults: u64,
}

impl Tape {
    /// Before the first call.
    pub fn new() -> Tape
        ensures faults { result.faults ≡ 0 }
        ensures log { result.log.calls ≡ [] }
    {
        Tape {
            log: Log::new(),
            faults: 0,
        }
    }

    /// Counts a failure.
    fn count_fault(&mut self)
        ensures faults { Faulted self.old.faults self.new.faults }
        ensures log { self.new.log ≡ self.old.log }
    {
        self.faults = self.faults.saturating_add(1);
    }

    /// Why a read is refused; a failure is counted.
    fn read_fault(&mut self, error: &Error) -> ShelfFault
        ensures cause { FailsOnlyFaulted (Err result) self.old.faults self.new.faults }
        ensures log { self.new.log ≡ self.old.log }
    {
        match error.kind() {
            ErrorKind::NotFound => ShelfFault::Missing,
            ErrorKind::OutOfMemory => ShelfFault::Memory,
            _ => {
                self.count_fault();
                ShelfFault::Failed
            }
        }
    }

    /// Why a change is refused; a failure is counted.
    fn put_fault(&mut self, error: &Error) -> PutFault
        ensures cause { PutFailsOnlyFaulted (Err result) self.old.faults self.new.faults }
        ensures log { self.new.log ≡ self.old.log }
    {
        if error.kind() == ErrorKind::OutOfMemory {
            return PutFault::Memory;
        }
        self.count_fault();
        PutFault::Failed
    }

    /// Logs a read that is refused, and says why; a failure is counted.
    pub fn refuse_read(&mut self, error: &Error, name: &str, at: u64, buf: &[u8]) -> ShelfFault
        ensures cause { FailsOnlyFaulted (Err result) self.old.faults self.new.faults }
        ensures log { self.new.log.calls ≡ self.old.log.calls ++ Reads (record { name = name.now; at = at; asked = length buf.now; gave = Err result }) ∷ [] }
    {
        let fault = self.read_fault(error);
        self.log.add(name, at, buf, Err(fault));
        fault
    }

    /// Logs a change that is refused, and says why; a failure is counted.
    pub fn refuse_put(&mut self, error: &Error, name: &str, step: Step, bytes: &[u8]) -> PutFault
        ensures cause { PutFailsOnlyFaulted (Err result) self.old.faults self.new.faults }
        ensures log { self.new.log.calls ≡ self.old.log.calls ++ Puts (record { name = name.now; step = step; bytes = bytes.now; answer = Err result }) ∷ [] }
    {
        let fault = self.put_fault(error);
        self.log.put(name, step, bytes, Err(fault));
        fault
    }

    /// Logs a change for which there is no memory.
    pub fn lack_memory(&mut self, name: &str, step: Step, bytes: &[u8]) -> PutFault
        ensures memory { result ≡ PutFault.Memory }
        ensures faults { self.new.faults ≡ self.old.faults }
        ensures log { self.new.log.calls ≡ self.old.log.calls ++ Puts (record { name = name.now; step = step; bytes = bytes.now; answer = Err PutFault.Memory }) ∷ [] }
    {
        self.log.put(name, step, bytes, Err(PutFault::Memory));
        PutFault::Memory
    }

    /// Logs a read that gave so many of a buffer's first bytes.
    pub(super) fn gave(&mut self, name: &str, at: u64, buf: &[u8], count: usize)
        ensures faults { self.new.faults ≡ self.old.faults }
        ensures log { self.new.log.calls ≡ self.old.log.calls ++ Reads (record { name = name.now; at = at; asked = length buf.now; gave = filled buf.now (Ok count) }) ∷ [] }
    {
        self.log.add(name, at, buf, Ok(count));
    }

    /// Logs that the bytes of a name can't be read again.
    pub fn passed_over(&mut self, name: &str)
        ensures faults { self.new.faults ≡ self.old.faults }
        ensures log { self.new.log.calls ≡ self.old.log.calls ++ Reads (asks_nothing name.now) ∷ [] }
    {
        self.log.add(name, 0, &[], Ok(0));
    }

    /// Logs whether two names lead to the same place.
    pub fn placed(&mut self, name: &str, other: &str, same: bool)
        ensures faults { self.new.faults ≡ self.old.faults }
        ensures log { self.new.log.calls ≡ self.old.log.calls ++ Reads (asks_place name.now other.now (Ok same)) ∷ [] }
    {
        self.log.ask_place(name, other, Ok(same));
    }

    /// Logs that this can't be told, and says why; a failure is counted.
    pub fn refuse_place(&mut self, error: &Error, name: &str, other: &str) -> ShelfFault
        ensures cause { CompareFailsOnlyFaulted (Err result) self.old.faults self.new.faults }
        ensures log { self.new.log.calls ≡ self.old.log.calls ++ Reads (asks_place name.now other.now (Err result)) ∷ [] }
    {
        let fault = match self.put_fault(error) {
            PutFault::Failed => ShelfFault::Failed,
            PutFault::Memory => ShelfFault::Memory,
        };
        self.log.ask_place(name, other, Err(fault));
        fault
    }

    /// Logs a change that was made.
    pub(super) fn took(&mut self, name: &str, step: Step, bytes: &[u8])
        ensures faults { self.new.faults ≡ self.old.faults }
        ensures log { self.new.log.calls ≡ self.old.log.calls ++ Puts (record { name = name.now; step = step; bytes = bytes.now; answer = Ok tt }) ∷ [] }
    {
        self.log.put(name, step, bytes, Ok(()));
    }

    /// Logs that a file in the making is begun for a name.
    pub fn begun(&mut self, name: &str)
        ensures faults { self.new.faults ≡ self.old.faults }
        ensures log { self.new.log.calls ≡ self.old.log.calls ++ Puts (record { name = name.now; step = Step.Begin; bytes = []; answer = Ok tt }) ∷ [] }
    {
        self.took(name, Step::Begin, &[]);
    }

    /// Logs that one is let go.
    pub fn let_go(&mut self, name: &str)
        ensures faults { self.new.faults ≡ self.old.faults }
        ensures log { self.new.log.calls ≡ self.old.log.calls ++ Puts (record { name = name.now; step = Step.Abandon; bytes = []; answer = Ok tt }) ∷ [] }
    {
        self.took(name, Step::Abandon, &[]);
    }
}
