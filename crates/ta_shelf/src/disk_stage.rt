//! A file in the making, on the disk.
//!
//! Its bytes go to a new file beside the target, under the first free name `TARGET.tav-0`,
//! `TARGET.tav-1`, and so on. To publish it the file is synced and renamed, and its folder synced:
//! a reader of the target finds what it held or all new bytes. Links are followed first
//! (system/links.rt), since a rename would replace them. A name of no regular file, as a pipe or
//! `/dev/stdout`, can't be replaced so: its bytes wait in memory and are appended at the end
//! (system/held.rt).
#![tactic(auto)]

ghost use Rattle.std.specs.Prelude.{◌≡◌, ◌++◌, ◌∷◌, [], IfOk, Ok, OnOk};
ghost use Rattle.std.specs.String.{string_bytes};
ghost use Rattle.ta_shelf.specs.Calls.{Puts};
ghost use Rattle.ta_shelf.specs.Put.{PutFailsOnlyFaulted};
ghost use Rattle.ta_shelf.specs.Stage.{answer_of, AddsTo};
ghost use Rattle.ta_shelf.specs.Making.{bytes_made, FileTakes, IsNewFile};

use crate::entry::Step;
use crate::fault::PutFault;
use crate::log::Log;
use crate::system::{Held, Opened, Tape, target_of};
use std::alloc::AllocGlobal;
use std::fs::OpenFile;
use std::io;
use std::io::{ErrorKind, Read, Seek, Write};
use std::rt::Files;

/// How many names beside a file are tried.
const TRIES: u32 = 1000;

/// What takes the bytes of a file in the making.
#[derive(Drop)]
pub enum Making<F: Drop> {
    /// A new file beside the target, to which the name leads, as `TARGET.tav-0`; and the bytes that it
    /// took.
    Beside {
        opened: Opened<F>,
        target: String,
        taken: Log,
    },
    /// Memory, where the name is that of no regular file.
    Within {
        held: Held,
    },
}

/// The name that it is for, and what takes its bytes until it is published.
#[derive(Drop)]
pub struct DiskStage<F: Drop> {
    name: String,
    making: Making<F>,
}

impl<F: Read + Write + Seek + OpenFile + Drop> Making<F> {
    /// One for a name, without bytes.
    fn new<R>(rt: &R, name: &str) -> io::Result<Making<F>>
    where
        R: Files<File = F> + AllocGlobal,
        ensures empty { IfOk result (λ making. bytes_made making ≡ []) }
        ensures made { IfOk result IsNewFile }
    {
        match target_of(rt, name)? {
            Some(target) => Making::beside(rt, target),
            None => Ok(Making::Within {
                held: Held::new(rt.alloc()),
            }),
        }
    }

    /// A new file beside a target, under the first of its names that has none.
    fn beside<R>(rt: &R, target: String) -> io::Result<Making<F>>
    where
        R: Files<File = F> + AllocGlobal,
        ensures empty { IfOk result (λ making. bytes_made making ≡ []) }
        ensures made { IfOk result IsNewFile }
    {
        for number in 0..TRIES {
            let beside = format!(in rt.alloc(); "{}.tav-{}", target.as_str(), number)?;
            match Opened::make(rt, beside.as_str(), target.as_str()) {
                Ok(opened) => {
                    return Ok(Making::Beside {
                        opened,
                        target,
                        taken: Log::new(),
                    });
                }
                Err(error) => {
                    if error.kind() != ErrorKind::AlreadyExists {
                        return Err(error);
                    }
                }
            }
        }
        Err(io::Error::from(ErrorKind::AlreadyExists))
    }

    /// Takes more bytes for a name; after a refusal some of the first ones.
    fn add(&mut self, tape: &mut Tape, name: &str, bytes: &[u8]) -> Result<(), PutFault>
        ensures added { AddsTo result bytes.now (bytes_made self.old) (bytes_made self.new) }
        // where the call isn't refused, the file took all of them
        ensures handed { OnOk result (FileTakes F.contents self.old self.new bytes.now) }
        ensures log { tape.new.log.calls ≡ tape.old.log.calls ++ Puts (record { name = name.now; step = Step.Add; bytes = bytes.now; answer = result }) ∷ [] }
        ensures cause { PutFailsOnlyFaulted result tape.old.faults tape.new.faults }
    {
        match self {
            Making::Beside { opened, taken, .. } => {
                let (count, answer) = opened.put_for(tape, name, bytes);
                taken.put("", Step::Add, &bytes[..count], Ok(()));
                answer
            }
            Making::Within { held } => held.add(tape, name, bytes),
        }
    }
}

impl<F: Read + Write + Seek + OpenFile + Drop> DiskStage<F> {
    /// Begins one for a name.
    pub fn begin<R>(rt: &R, tape: &mut Tape, name: &str) -> Result<DiskStage<F>, PutFault>
    where
        R: Files<File = F> + AllocGlobal,
        ensures named { IfOk result (λ stage. string_bytes stage.name ≡ name.now) }
        ensures empty { IfOk result (λ stage. bytes_made stage.making ≡ []) }
        ensures made { IfOk result (λ stage. IsNewFile stage.making) }
        ensures log { tape.new.log.calls ≡ tape.old.log.calls ++ Puts (record { name = name.now; step = Step.Begin; bytes = []; answer = answer_of result }) ∷ [] }
        ensures cause { PutFailsOnlyFaulted (answer_of result) tape.old.faults tape.new.faults }
    {
        match DiskStage::make(rt, name) {
            Ok(stage) => {
                tape.begun(name);
                Ok(stage)
            }
            Err(error) => Err(tape.refuse_put(&error, name, Step::Begin, &[])),
        }
    }

    /// One for a name, which isn't logged yet.
    fn make<R>(rt: &R, name: &str) -> io::Result<DiskStage<F>>
    where
        R: Files<File = F> + AllocGlobal,
        ensures named { IfOk result (λ stage. string_bytes stage.name ≡ name.now) }
        ensures empty { IfOk result (λ stage. bytes_made stage.making ≡ []) }
        ensures made { IfOk result (λ stage. IsNewFile stage.making) }
    {
        let own = String::from_str(rt.alloc(), name)?;
        let making = Making::new(rt, name)?;
        Ok(DiskStage { name: own, making })
    }

    /// Adds bytes; after a refusal some of the first ones are added.
    pub fn add(&mut self, tape: &mut Tape, bytes: &[u8]) -> Result<(), PutFault>
        ensures named { self.new.name ≡ self.old.name }
        ensures added { AddsTo result bytes.now (bytes_made self.old.making) (bytes_made self.new.making) }
        ensures handed { OnOk result (FileTakes F.contents self.old.making self.new.making bytes.now) }
        ensures log { tape.new.log.calls ≡ tape.old.log.calls ++ Puts (record { name = string_bytes self.old.name; step = Step.Add; bytes = bytes.now; answer = result }) ∷ [] }
        ensures cause { PutFailsOnlyFaulted result tape.old.faults tape.new.faults }
    {
        self.making.add(tape, self.name.as_str(), bytes)
    }

    /// Puts it in the place of its name.
    pub fn publish<R>(self, rt: &R, tape: &mut Tape) -> Result<(), PutFault>
    where
        R: Files<File = F> + AllocGlobal,
        ensures log { tape.new.log.calls ≡ tape.old.log.calls ++ Puts (record { name = string_bytes self.name; step = Step.Publish; bytes = []; answer = result }) ∷ [] }
        ensures cause { PutFailsOnlyFaulted result tape.old.faults tape.new.faults }
    {
        let DiskStage { name, making } = self;
        match making {
            Making::Beside { opened, target, .. } => {
                opened.publish(rt, tape, name.as_str(), target.as_str())
            }
            Making::Within { held } => held.publish(rt, tape, name.as_str()),
        }
    }

    /// Lets it go; a file beside the target is removed.
    pub fn abandon<R>(self, rt: &R, tape: &mut Tape)
    where
        R: Files<File = F>,
        ensures log { tape.new.log.calls ≡ tape.old.log.calls ++ Puts (record { name = string_bytes self.name; step = Step.Abandon; bytes = []; answer = Ok tt }) ∷ [] }
        ensures faults { tape.new.faults ≡ tape.old.faults }
    {
        let DiskStage { name, making } = self;
        if let Making::Beside { opened, .. } = making {
            opened.let_go(rt);
        }
        tape.let_go(name.as_str());
    }
}
