//! Bytes that wait for a name that is no regular file, as a pipe.
#![tactic(auto)]

ghost use Rattle.std.specs.Prelude.{◌≡◌, ◌++◌, ◌∷◌, [], IfErr, IfOk, Ok, OnOk};
ghost use Rattle.ta_shelf.specs.Calls.{Puts};
ghost use Rattle.ta_shelf.specs.Put.{PutFailsOnlyFaulted};

use crate::entry::Step;
use crate::fault::PutFault;
use crate::system::access::Access;
use crate::system::opened::Opened;
use crate::system::tape::Tape;
use std::alloc::{AllocGlobal, Global};
use std::io::{Read, Seek, Write};
use std::rt::Files;
use ta_base::List;

/// Bytes in memory, until they are written.
#[derive(Drop)]
pub struct Held {
    pub bytes: List<u8>,
}

impl Held {
    /// None so far.
    pub fn new(alloc: Global) -> Held
        ensures { result.bytes ≡ [] }
    {
        Held {
            bytes: List::empty(alloc),
        }
    }

    /// Keeps more bytes for a name.
    pub fn add(&mut self, tape: &mut Tape, name: &str, bytes: &[u8]) -> Result<(), PutFault>
        ensures added { OnOk result (self.new.bytes ≡ self.old.bytes ++ bytes.now) }
        ensures kept { IfErr result (λ _. self.new.bytes ≡ self.old.bytes) }
        ensures log { tape.new.log.calls ≡ tape.old.log.calls ++ Puts (record { name = name.now; step = Step.Add; bytes = bytes.now; answer = result }) ∷ [] }
        ensures cause { PutFailsOnlyFaulted result tape.old.faults tape.new.faults }
    {
        match self.bytes.extend(bytes) {
            Ok(()) => {
                tape.took(name, Step::Add, bytes);
                Ok(())
            }
            Err(_) => Err(tape.lack_memory(name, Step::Add, bytes)),
        }
    }

    /// Writes them at the end of the file of a name.
    pub fn publish<R: Files + AllocGlobal>(
        self,
        rt: &R,
        tape: &mut Tape,
        name: &str,
    ) -> Result<(), PutFault>
    where
        R::File: Read + Write + Seek,
        ensures log { tape.new.log.calls ≡ tape.old.log.calls ++ Puts (record { name = name.now; step = Step.Publish; bytes = []; answer = result }) ∷ [] }
        ensures cause { PutFailsOnlyFaulted result tape.old.faults tape.new.faults }
    {
        match Opened::open(rt, Access::Append, name, 0) {
            Ok(mut opened) => opened.pour(tape, self.bytes.as_slice()), // trusted
            Err(error) => Err(tape.refuse_put(&error, name, Step::Publish, &[])),
        }
    }
}
