//! A shelf over the real files.
#![tactic(auto)]

ghost use Rattle.std.specs.Prelude.{◌≡◌, ◌≤◌, [], length, IfOk, None, Err};
ghost use Rattle.std.specs.String.{string_bytes};
ghost use Rattle.ta_shelf.specs.Making.{bytes_made};

use crate::disk_stage::DiskStage;
use crate::entry::Step;
use crate::fault::{PutFault, ShelfFault};
use crate::shelf::Shelf;
use crate::system::{Access, Opened, Tape, lead_to_one, target_of};
use std::alloc::AllocGlobal;
use std::io;
use std::rt::Files;

/// Real files, by their paths. What they hold is untold; what the system's reads gave is logged, and
/// what it was handed and took.
///
/// A file to be read is missing where the system says that it isn't there; whatever else refuses a
/// call, as a folder in its place or a right that lacks, is a failure, but for want of memory. The count
/// of failures rises up to the greatest `u64`.
///
/// The file that was read last stays open, and a call that goes on where the one before ended takes
/// its bytes from there. So a file that is read front to back is opened once: its bytes are those of
/// one file, whatever its name comes to stand for meanwhile, and it may be a pipe. A call at any other
/// place or of another name opens its name anew, as does every call at offset 0; a place behind the
/// beginning is then sought, which a pipe refuses. An open file is closed where a read gives no byte,
/// as at its end, and at the next call that doesn't go on in it.
#[derive(Drop)]
pub struct DiskShelf<R: Files + AllocGlobal + Clone + Drop> {
    rt: R,
    reading: Option<Opened<R::File>>,
    tape: Tape,
}

impl<R: Files + AllocGlobal + Clone + Drop> DiskShelf<R> {
    /// The files that a runtime reaches, none of which is open.
    pub fn new(rt: R) -> DiskShelf<R>
        ensures faults { result.tape.faults ≡ 0 }
        ensures log { result.tape.log.calls ≡ [] }
    {
        DiskShelf {
            rt,
            reading: None,
            tape: Tape::new(),
        }
    }

    /// The open file of a name, which stands at this offset: the one that is read, or one opened now.
    fn open_at(&mut self, name: &str, at: u64) -> io::Result<Opened<R::File>>
        ensures named { IfOk result (λ o. string_bytes o.name ≡ name.now) }
        ensures placed { IfOk result (λ o. o.at ≡ at) }
        ensures tape { self.new.tape ≡ self.old.tape }
    {
        if let Some(opened) = self.reading.take() {
            if opened.goes_on(name, at) {
                return Ok(opened);
            }
        }
        Opened::open(&self.rt, Access::Read, name, at)
    }
}

impl<R: Files + AllocGlobal + Clone + Drop> Shelf for DiskShelf<R> {
    type Stage = DiskStage<R::File>;

    ghost files = { λ s. None };

    ghost faults = { λ s. s.tape.faults };

    ghost calls = { λ s. s.tape.log.calls };

    ghost wants_memory = { Unit {0} };

    ghost stage_name = { λ stage. string_bytes stage.name };

    ghost stage_bytes = { λ stage. bytes_made stage.making };

    fn read_at(&mut self, name: &str, at: u64, buf: &mut [u8]) -> Result<usize, ShelfFault> {
        let mut opened = match self.open_at(name, at) {
            Ok(opened) => opened,
            Err(error) => return Err(self.tape.refuse_read(&error, name, at, buf)),
        };
        match opened.read(&mut self.tape, buf) {
            Ok(0) => Ok(0),
            Ok(count) => {
                self.reading = Some(opened);
                Ok(count)
            }
            Err(fault) => Err(fault),
        }
    }

    fn keeps_bytes(&mut self, name: &str) -> bool {
        match target_of(&self.rt, name) {
            Ok(None) => {
                self.tape.passed_over(name);
                false
            }
            _ => true,
        }
    }

    fn same_place(&mut self, name: &str, other: &str) -> Result<bool, ShelfFault> {
        match lead_to_one(&self.rt, name, other) {
            Ok(same) => {
                self.tape.placed(name, other, same);
                Ok(same)
            }
            Err(error) => Err(self.tape.refuse_place(&error, name, other)),
        }
    }

    fn create(&mut self, name: &str) -> Result<(), PutFault> {
        match Opened::open(&self.rt, Access::Create, name, 0) {
            Ok(mut opened) => opened.put(&mut self.tape, &[]),
            Err(error) => Err(self.tape.refuse_put(&error, name, Step::Create, &[])),
        }
    }

    fn append(&mut self, name: &str, bytes: &[u8]) -> Result<(), PutFault> {
        match Opened::open(&self.rt, Access::Append, name, 0) {
            Ok(mut opened) => opened.put(&mut self.tape, bytes),
            Err(error) => Err(self.tape.refuse_put(&error, name, Step::Append, bytes)),
        }
    }

    fn begin(&mut self, name: &str) -> Result<DiskStage<R::File>, PutFault> {
        DiskStage::begin(&self.rt, &mut self.tape, name)
    }

    fn add(&mut self, stage: &mut DiskStage<R::File>, bytes: &[u8]) -> Result<(), PutFault> {
        stage.add(&mut self.tape, bytes)
    }

    fn publish(&mut self, stage: DiskStage<R::File>) -> Result<(), PutFault> {
        stage.publish(&self.rt, &mut self.tape)
    }

    fn abandon(&mut self, stage: DiskStage<R::File>) {
        stage.abandon(&self.rt, &mut self.tape);
    }
}
