//! A shelf in memory, some of whose calls fail.
#![tactic(auto)]

ghost use Rattle.std.specs.Prelude.{◌≡◌, ◌≤◌, ◌++◌, ◌∷◌, [], ℕ, length, min, IsOk, IfOk, IfErr, IfSome, IsTrue, Ok, Some};
ghost use Rattle.ta_shelf.specs.Calls.{Reads, Puts, filled};
ghost use Rattle.ta_shelf.specs.Failing.{IsNextListed, next_calls};
ghost use Rattle.ta_shelf.specs.Files.{AreDistinct, bytes_left, file_named};
ghost use Rattle.ta_shelf.specs.Place.{asks_place, LeadsSo};
ghost use Rattle.ta_shelf.specs.Put.{Creates, Appends, OthersStay, PutCountsFaults, PutFailsExactly};
ghost use Rattle.ta_shelf.specs.Shelf.{ReadsAt, CountsFaults, FailsExactly};
ghost use Rattle.ta_shelf.specs.Stage.{answer_of, AddsTo, Publishes};

use crate::entry::Step;
use crate::failing::Failing;
use crate::fault::{PutFault, ShelfFault};
use crate::memory_stage::MemoryStage;
use crate::quiet_shelf::QuietShelf;
use crate::shelf::Shelf;
use std::alloc::AllocError;
use ta_base::{List, Text};

/// Files in memory, which are told. The calls whose numbers are listed fail; the first is number 1,
/// and calls past number 2^64 - 1 never fail. Where a change of a file fails or wants memory, all files
/// stay.
#[derive(Drop)]
pub struct MemoryShelf {
    shelf: QuietShelf,
    failing: Failing,
}

impl MemoryShelf {
    /// A shelf of these files, with the numbers of the calls that fail. It takes no memory.
    pub fn new(files: List<(Text, List<u8>)>, failing: List<u64>) -> Result<MemoryShelf, AllocError>
        requires { AreDistinct files }
        ensures made { IsOk result }
        ensures files { IfOk result (λ s. s.shelf.files ≡ files) }
        ensures listed { IfOk result (λ s. s.failing.listed ≡ failing) }
        ensures calls { IfOk result (λ s. s.failing.calls ≡ 0) }
        ensures faults { IfOk result (λ s. s.failing.faults ≡ 0) }
        ensures log { IfOk result (λ s. s.shelf.log.calls ≡ []) }
    {
        Ok(MemoryShelf {
            shelf: QuietShelf::new(files)?,
            failing: Failing::new(failing),
        })
    }
}

impl Shelf for MemoryShelf {
    type Stage = MemoryStage;

    ghost files = { λ s. Some (λ name. file_named name s.shelf.files) };

    ghost faults = { λ s. s.failing.faults };

    ghost calls = { λ s. s.shelf.log.calls };

    ghost wants_memory = { ⊥ };

    ghost stage_name = { λ stage. stage.name };

    ghost stage_bytes = { λ stage. stage.bytes };

    fn read_at(&mut self, name: &str, at: u64, buf: &mut [u8]) -> Result<usize, ShelfFault>
        ensures count { IfOk result (λ k. k ≤ length buf.new) }
        ensures bytes { ReadsAt (file_named name.now self.old.shelf.files) at buf.new result }
        ensures cause { CountsFaults result self.old.failing.faults self.new.failing.faults }
        ensures filled { let left = bytes_left (file_named name.now self.old.shelf.files) at in
            IfOk result (λ k. k ≡ min (length buf.new) left) }
        ensures log { self.new.shelf.log.calls ≡ self.old.shelf.log.calls ++ Reads (record { name = name.now; at = at; asked = length buf.old; gave = filled buf.new result }) ∷ [] }
        ensures kept { self.new.shelf.files ≡ self.old.shelf.files }
        ensures fails { FailsExactly result (IsNextListed self.old.failing.listed self.old.failing.calls) }
        ensures listed { self.new.failing.listed ≡ self.old.failing.listed }
        ensures calls { self.new.failing.calls ≡ next_calls self.old.failing.calls }
    {
        if self.failing.fails_next() {
            let answer = Err(ShelfFault::Failed);
            self.shelf.log.add(name, at, buf, answer);
            return answer;
        }
        self.shelf.read_at(name, at, buf)
    }

    // it never fails, and is no call that is numbered
    fn keeps_bytes(&mut self, _name: &str) -> bool
        ensures yes { IsTrue result }
        ensures same { self.new ≡ self.old }
    {
        true
    }

    // it never fails, and is no call that is numbered
    fn same_place(&mut self, name: &str, other: &str) -> Result<bool, ShelfFault>
        ensures leads { LeadsSo name.now other.now result }
        ensures quiet { IsOk result }
        ensures log { self.new.shelf.log.calls ≡ self.old.shelf.log.calls ++ Reads (asks_place name.now other.now result) ∷ [] }
        ensures kept { self.new.shelf.files ≡ self.old.shelf.files }
        ensures failing { self.new.failing ≡ self.old.failing }
    {
        self.shelf.same_place(name, other)
    }

    fn create(&mut self, name: &str) -> Result<(), PutFault>
        ensures made { Creates result name.now (λ n. file_named n self.old.shelf.files) (λ n. file_named n self.new.shelf.files) }
        ensures others { OthersStay name.now (λ n. file_named n self.old.shelf.files) (λ n. file_named n self.new.shelf.files) }
        ensures cause { PutCountsFaults result self.old.failing.faults self.new.failing.faults }
        ensures kept { IfErr result (λ _. self.new.shelf.files ≡ self.old.shelf.files) }
        ensures log { self.new.shelf.log.calls ≡ self.old.shelf.log.calls ++ Puts (record { name = name.now; step = Step.Create; bytes = []; answer = result }) ∷ [] }
        ensures fails { PutFailsExactly result (IsNextListed self.old.failing.listed self.old.failing.calls) }
        ensures listed { self.new.failing.listed ≡ self.old.failing.listed }
        ensures calls { self.new.failing.calls ≡ next_calls self.old.failing.calls }
    {
        if self.failing.fails_next() {
            let answer = Err(PutFault::Failed);
            self.shelf.log.put(name, Step::Create, &[], answer);
            return answer;
        }
        self.shelf.create(name)
    }

    fn append(&mut self, name: &str, bytes: &[u8]) -> Result<(), PutFault>
        ensures added { Appends result name.now bytes.now (λ n. file_named n self.old.shelf.files) (λ n. file_named n self.new.shelf.files) }
        ensures others { OthersStay name.now (λ n. file_named n self.old.shelf.files) (λ n. file_named n self.new.shelf.files) }
        ensures cause { PutCountsFaults result self.old.failing.faults self.new.failing.faults }
        ensures kept { IfErr result (λ _. self.new.shelf.files ≡ self.old.shelf.files) }
        ensures log { self.new.shelf.log.calls ≡ self.old.shelf.log.calls ++ Puts (record { name = name.now; step = Step.Append; bytes = bytes.now; answer = result }) ∷ [] }
        ensures fails { PutFailsExactly result (IsNextListed self.old.failing.listed self.old.failing.calls) }
        ensures listed { self.new.failing.listed ≡ self.old.failing.listed }
        ensures calls { self.new.failing.calls ≡ next_calls self.old.failing.calls }
    {
        if self.failing.fails_next() {
            let answer = Err(PutFault::Failed);
            self.shelf.log.put(name, Step::Append, bytes, answer);
            return answer;
        }
        self.shelf.append(name, bytes)
    }

    fn begin(&mut self, name: &str) -> Result<MemoryStage, PutFault>
        ensures named { IfOk result (λ stage. stage.name ≡ name.now) }
        ensures empty { IfOk result (λ stage. stage.bytes ≡ []) }
        ensures cause { PutCountsFaults (answer_of result) self.old.failing.faults self.new.failing.faults }
        ensures log { self.new.shelf.log.calls ≡ self.old.shelf.log.calls ++ Puts (record { name = name.now; step = Step.Begin; bytes = []; answer = answer_of result }) ∷ [] }
        ensures kept { self.new.shelf.files ≡ self.old.shelf.files }
        ensures fails { PutFailsExactly (answer_of result) (IsNextListed self.old.failing.listed self.old.failing.calls) }
        ensures listed { self.new.failing.listed ≡ self.old.failing.listed }
        ensures calls { self.new.failing.calls ≡ next_calls self.old.failing.calls }
    {
        if self.failing.fails_next() {
            self.shelf
                .log
                .put(name, Step::Begin, &[], Err(PutFault::Failed));
            return Err(PutFault::Failed);
        }
        self.shelf.begin(name)
    }

    fn add(&mut self, stage: &mut MemoryStage, bytes: &[u8]) -> Result<(), PutFault>
        ensures named { stage.new.name ≡ stage.old.name }
        ensures added { AddsTo result bytes.now stage.old.bytes stage.new.bytes }
        ensures whole { IfErr result (λ _. stage.new.bytes ≡ stage.old.bytes) }
        ensures cause { PutCountsFaults result self.old.failing.faults self.new.failing.faults }
        ensures log { self.new.shelf.log.calls ≡ self.old.shelf.log.calls ++ Puts (record { name = stage.old.name; step = Step.Add; bytes = bytes.now; answer = result }) ∷ [] }
        ensures kept { self.new.shelf.files ≡ self.old.shelf.files }
        ensures fails { PutFailsExactly result (IsNextListed self.old.failing.listed self.old.failing.calls) }
        ensures listed { self.new.failing.listed ≡ self.old.failing.listed }
        ensures calls { self.new.failing.calls ≡ next_calls self.old.failing.calls }
    {
        if self.failing.fails_next() {
            let answer = Err(PutFault::Failed);
            self.shelf
                .log
                .put(stage.name.as_str(), Step::Add, bytes, answer);
            return answer;
        }
        self.shelf.add(stage, bytes)
    }

    fn publish(&mut self, stage: MemoryStage) -> Result<(), PutFault>
        ensures published { Publishes result stage.name stage.bytes (λ n. file_named n self.old.shelf.files) (λ n. file_named n self.new.shelf.files) }
        ensures others { OthersStay stage.name (λ n. file_named n self.old.shelf.files) (λ n. file_named n self.new.shelf.files) }
        ensures cause { PutCountsFaults result self.old.failing.faults self.new.failing.faults }
        ensures kept { IfErr result (λ _. self.new.shelf.files ≡ self.old.shelf.files) }
        ensures log { self.new.shelf.log.calls ≡ self.old.shelf.log.calls ++ Puts (record { name = stage.name; step = Step.Publish; bytes = []; answer = result }) ∷ [] }
        ensures fails { PutFailsExactly result (IsNextListed self.old.failing.listed self.old.failing.calls) }
        ensures listed { self.new.failing.listed ≡ self.old.failing.listed }
        ensures calls { self.new.failing.calls ≡ next_calls self.old.failing.calls }
    {
        if self.failing.fails_next() {
            let answer = Err(PutFault::Failed);
            self.shelf
                .log
                .put(stage.name.as_str(), Step::Publish, &[], answer);
            return answer;
        }
        self.shelf.publish(stage)
    }

    // letting go never fails, and is no call that is numbered
    fn abandon(&mut self, stage: MemoryStage)
        ensures log { self.new.shelf.log.calls ≡ self.old.shelf.log.calls ++ Puts (record { name = stage.name; step = Step.Abandon; bytes = []; answer = Ok tt }) ∷ [] }
        ensures kept { self.new.shelf.files ≡ self.old.shelf.files }
        ensures failing { self.new.failing ≡ self.old.failing }
    {
        self.shelf.abandon(stage);
    }
}
