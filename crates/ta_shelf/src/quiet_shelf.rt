//! A shelf in memory that never fails.
#![tactic(auto)]

ghost use Rattle.std.specs.Prelude.{◌≡◌, ◌≤◌, ◌++◌, ◌∷◌, [], ℕ, length, min, take, drop, IsOk, IfOk, IfErr, IfSome, IsTrue, Ok, Some};
ghost use Rattle.ta_shelf.specs.Calls.{Reads, Puts, filled};
ghost use Rattle.ta_shelf.specs.Files.{AreDistinct, bytes_left, file_named};
ghost use Rattle.ta_shelf.specs.Place.{asks_place, LeadsSo};
ghost use Rattle.ta_shelf.specs.Put.{Creates, Appends, OthersStay, PutNeverFails};
ghost use Rattle.ta_shelf.specs.Shelf.{ReadsAt, FailsOnlyFaulted, NeverFails};
ghost use Rattle.ta_shelf.specs.Stage.{answer_of, AddsTo, Publishes};

use crate::entry::Step;
use crate::fault::{PutFault, ShelfFault};
use crate::files::{append_file, create_file, find_file, put_file};
use crate::log::Log;
use crate::memory_stage::MemoryStage;
use crate::shelf::Shelf;
use std::alloc::AllocError;
use ta_base::{List, Text};

/// Files in memory, which are told. No call fails; a change of a file may want memory, and then all
/// files stay.
#[derive(Drop)]
pub struct QuietShelf {
    files: List<(Text, List<u8>)>,
    pub(crate) log: Log,
    pub ghost distinct: { AreDistinct files },
}

impl QuietShelf {
    /// A shelf of these files. It takes no memory.
    pub fn new(files: List<(Text, List<u8>)>) -> Result<QuietShelf, AllocError>
        requires { AreDistinct files }
        ensures made { IsOk result }
        ensures files { IfOk result (λ s. s.files ≡ files) }
        ensures log { IfOk result (λ s. s.log.calls ≡ []) }
    {
        Ok(QuietShelf {
            files,
            log: Log::new(),
        })
    }
}

impl Shelf for QuietShelf {
    type Stage = MemoryStage;

    ghost files = { λ s. Some (λ name. file_named name s.files) };

    ghost faults = { λ s. 0 };

    ghost calls = { λ s. s.log.calls };

    ghost wants_memory = { ⊥ };

    ghost stage_name = { λ stage. stage.name };

    ghost stage_bytes = { λ stage. stage.bytes };

    fn read_at(&mut self, name: &str, at: u64, buf: &mut [u8]) -> Result<usize, ShelfFault>
        ensures count { IfOk result (λ k. k ≤ length buf.new) }
        ensures bytes { ReadsAt (file_named name.now self.old.files) at buf.new result }
        ensures quiet { NeverFails result }
        ensures filled { let left = bytes_left (file_named name.now self.old.files) at in
            IfOk result (λ k. k ≡ min (length buf.new) left) }
        ensures log { self.new.log.calls ≡ self.old.log.calls ++ Reads (record { name = name.now; at = at; asked = length buf.old; gave = filled buf.new result }) ∷ [] }
        ensures kept { self.new.files ≡ self.old.files }
    {
        let answer = match find_file(self.files.as_slice(), name) {
            Some(bytes) => Ok(copy_from(bytes.as_slice(), at, buf)),
            None => Err(ShelfFault::Missing),
        };
        self.log.add(name, at, buf, answer);
        answer
    }

    fn keeps_bytes(&mut self, _name: &str) -> bool
        ensures yes { IsTrue result }
        ensures same { self.new ≡ self.old }
    {
        true
    }

    fn same_place(&mut self, name: &str, other: &str) -> Result<bool, ShelfFault>
        ensures leads { LeadsSo name.now other.now result }
        ensures quiet { IsOk result }
        ensures log { self.new.log.calls ≡ self.old.log.calls ++ Reads (asks_place name.now other.now result) ∷ [] }
        ensures kept { self.new.files ≡ self.old.files }
    {
        let answer = Ok(name == other);
        self.log.ask_place(name, other, answer);
        answer
    }

    fn create(&mut self, name: &str) -> Result<(), PutFault>
        ensures made { Creates result name.now (λ n. file_named n self.old.files) (λ n. file_named n self.new.files) }
        ensures others { OthersStay name.now (λ n. file_named n self.old.files) (λ n. file_named n self.new.files) }
        ensures quiet { PutNeverFails result }
        ensures kept { IfErr result (λ _. self.new.files ≡ self.old.files) }
        ensures log { self.new.log.calls ≡ self.old.log.calls ++ Puts (record { name = name.now; step = Step.Create; bytes = []; answer = result }) ∷ [] }
    {
        match create_file(&mut self.files, name) {
            Ok(()) => {
                self.log.put(name, Step::Create, &[], Ok(()));
                Ok(())
            }
            Err(_) => {
                self.log.put(name, Step::Create, &[], Err(PutFault::Memory));
                Err(PutFault::Memory)
            }
        }
    }

    fn append(&mut self, name: &str, bytes: &[u8]) -> Result<(), PutFault>
        ensures added { Appends result name.now bytes.now (λ n. file_named n self.old.files) (λ n. file_named n self.new.files) }
        ensures others { OthersStay name.now (λ n. file_named n self.old.files) (λ n. file_named n self.new.files) }
        ensures quiet { PutNeverFails result }
        ensures kept { IfErr result (λ _. self.new.files ≡ self.old.files) }
        ensures log { self.new.log.calls ≡ self.old.log.calls ++ Puts (record { name = name.now; step = Step.Append; bytes = bytes.now; answer = result }) ∷ [] }
    {
        match append_file(&mut self.files, name, bytes) {
            Ok(()) => {
                self.log.put(name, Step::Append, bytes, Ok(()));
                Ok(())
            }
            Err(_) => {
                self.log
                    .put(name, Step::Append, bytes, Err(PutFault::Memory));
                Err(PutFault::Memory)
            }
        }
    }

    fn begin(&mut self, name: &str) -> Result<MemoryStage, PutFault>
        ensures named { IfOk result (λ stage. stage.name ≡ name.now) }
        ensures empty { IfOk result (λ stage. stage.bytes ≡ []) }
        ensures quiet { PutNeverFails (answer_of result) }
        ensures log { self.new.log.calls ≡ self.old.log.calls ++ Puts (record { name = name.now; step = Step.Begin; bytes = []; answer = answer_of result }) ∷ [] }
        ensures kept { self.new.files ≡ self.old.files }
    {
        match MemoryStage::begin(self.files.allocator(), name) {
            Ok(stage) => {
                self.log.put(name, Step::Begin, &[], Ok(()));
                Ok(stage)
            }
            Err(_) => {
                self.log.put(name, Step::Begin, &[], Err(PutFault::Memory));
                Err(PutFault::Memory)
            }
        }
    }

    fn add(&mut self, stage: &mut MemoryStage, bytes: &[u8]) -> Result<(), PutFault>
        ensures named { stage.new.name ≡ stage.old.name }
        ensures added { AddsTo result bytes.now stage.old.bytes stage.new.bytes }
        ensures whole { IfErr result (λ _. stage.new.bytes ≡ stage.old.bytes) }
        ensures quiet { PutNeverFails result }
        ensures log { self.new.log.calls ≡ self.old.log.calls ++ Puts (record { name = stage.old.name; step = Step.Add; bytes = bytes.now; answer = result }) ∷ [] }
        ensures kept { self.new.files ≡ self.old.files }
    {
        match stage.bytes.extend(bytes) {
            Ok(()) => {
                self.log.put(stage.name.as_str(), Step::Add, bytes, Ok(()));
                Ok(())
            }
            Err(_) => {
                self.log.put(stage.name.as_str(), Step::Add, bytes, Err(PutFault::Memory));
                Err(PutFault::Memory)
            }
        }
    }

    fn publish(&mut self, stage: MemoryStage) -> Result<(), PutFault>
        ensures published { Publishes result stage.name stage.bytes (λ n. file_named n self.old.files) (λ n. file_named n self.new.files) }
        ensures others { OthersStay stage.name (λ n. file_named n self.old.files) (λ n. file_named n self.new.files) }
        ensures quiet { PutNeverFails result }
        ensures kept { IfErr result (λ _. self.new.files ≡ self.old.files) }
        ensures log { self.new.log.calls ≡ self.old.log.calls ++ Puts (record { name = stage.name; step = Step.Publish; bytes = []; answer = result }) ∷ [] }
    {
        let memory = Err(PutFault::Memory);
        match stage.name.copy(self.files.allocator()) {
            Ok(name) => match put_file(&mut self.files, name, stage.bytes) {
                Ok(()) => {
                    self.log
                        .put(stage.name.as_str(), Step::Publish, &[], Ok(()));
                    Ok(())
                }
                Err(_) => {
                    self.log
                        .put(stage.name.as_str(), Step::Publish, &[], memory);
                    memory
                }
            },
            Err(_) => {
                self.log
                    .put(stage.name.as_str(), Step::Publish, &[], memory);
                memory
            }
        }
    }

    fn abandon(&mut self, stage: MemoryStage)
        ensures log { self.new.log.calls ≡ self.old.log.calls ++ Puts (record { name = stage.name; step = Step.Abandon; bytes = []; answer = Ok tt }) ∷ [] }
        ensures kept { self.new.files ≡ self.old.files }
    {
        self.log
            .put(stage.name.as_str(), Step::Abandon, &[], Ok(()));
    }
}

/// Copies a file's bytes from an offset on into a buffer, as far as they go.
fn copy_from(bytes: &[u8], at: u64, buf: &mut [u8]) -> usize
    ensures count { result ≡ min (length buf.new) (length (drop at bytes.now)) }
    ensures bytes { take result buf.new ≡ take result (drop at bytes.now) }
{
    if at >= bytes.len() as u64 {
        return 0;
    }
    let rest = &bytes[at as usize..];
    let count = rest.len().min(buf.len());
    buf[..count].copy_from_slice(&rest[..count]);
    count
}
