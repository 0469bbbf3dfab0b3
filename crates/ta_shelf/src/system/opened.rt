//! Files that the system opened, each with the name by which it did. What is read and written through
//! them is logged here, and nowhere else.
//!
//! What is trusted of a shelf over the real files is in the lines that end with `// trusted`: that the
//! system is handed this name, this offset, these two names, and that it does what it answers.
#![tactic(auto)]

ghost use Rattle.std.specs.Prelude.{◌≡◌, ◌≤◌, ◌+◌, ◌-◌, ◌^◌, min, ◌++◌, ◌∷◌, [], length, take, true, IfOk, OnOk, IsTrue};
ghost use Rattle.std.specs.Io.KnownBytes.{Appends, ReadConsumes};
ghost use Rattle.std.specs.String.{string_bytes};
ghost use Rattle.ta_shelf.specs.Access.{step_of};
ghost use Rattle.ta_shelf.specs.Calls.{Reads, Puts, filled};
ghost use Rattle.ta_shelf.specs.Put.{PutFailsOnlyFaulted};
ghost use Rattle.ta_shelf.specs.Shelf.{FailsOnlyFaulted};

use crate::entry::Step;
use crate::fault::{PutFault, ShelfFault};
use crate::retrying::{hand_over, read_again};
use crate::system::access::{Access, options, step};
use crate::system::tape::Tape;
use std::alloc::AllocGlobal;
use std::fs::OpenFile;
use std::io::{ErrorKind, Read, Seek, SeekFrom, Write};
use std::rt::Files;
use std::{fs, io};

/// An open file, what it is for, the name by which it was opened, the offset at which it stands,
/// whether all that it took is on the disk, and whether it is in the place of another name.
#[derive(Drop)]
pub struct Opened<F: Drop> {
    access: Access,
    name: String,
    at: u64,
    synced: bool,
    placed: bool,
    file: F,
}

impl<F: Drop> Opened<F> {
    /// Opens the file of a name, and seeks an offset.
    pub fn open<R>(rt: &R, access: Access, name: &str, at: u64) -> io::Result<Opened<F>>
    where
        R: Files<File = F> + AllocGlobal,
        F: Read + Write + Seek,
        ensures access { IfOk result (λ o. o.access ≡ access) }
        ensures named { IfOk result (λ o. string_bytes o.name ≡ name.now) }
        ensures placed { IfOk result (λ o. o.at ≡ at) }
    {
        let name = String::from_str(rt.alloc(), name)?;
        let mut file = options(access).open(rt, name.as_str())?; // trusted
        if at > 0 {
            file.seek(SeekFrom::Start(at))?; // trusted
        }
        Ok(Opened {
            access,
            name,
            at,
            synced: false,
            placed: false,
            file,
        })
    }

    /// Whether a read of this name at this offset goes on here.
    pub fn goes_on(&self, name: &str, at: u64) -> bool
        ensures named { IsTrue result → string_bytes self.now.name ≡ name.now }
        ensures placed { IsTrue result → self.now.at ≡ at }
    {
        self.at == at && self.name.as_str() == name
    }

    /// Reads bytes into a buffer, and says how many.
    pub fn read(&mut self, tape: &mut Tape, buf: &mut [u8]) -> Result<usize, ShelfFault>
    where
        F: Read,
        ensures count { IfOk result (λ k. k ≤ length buf.new) }
        // the buffer's first bytes are those that the file gave
        ensures gave { ReadConsumes (F.remaining self.old.file) (F.remaining self.new.file) result buf.new }
        ensures named { self.new.name ≡ self.old.name }
        ensures placed { IfOk result (λ k. self.new.at ≡ min (self.old.at + k) (2 ^ 64 - 1)) }
        ensures log { tape.new.log.calls ≡ tape.old.log.calls ++ Reads (record { name = string_bytes self.old.name; at = self.old.at; asked = length buf.old; gave = filled buf.new result }) ∷ [] }
        ensures cause { FailsOnlyFaulted result tape.old.faults tape.new.faults }
    {
        match read_again(&mut self.file, buf) {
            Ok(count) => {
                tape.gave(self.name.as_str(), self.at, buf, count);
                self.at = self.at.saturating_add(count as u64);
                Ok(count)
            }
            Err(error) => Err(tape.refuse_read(&error, self.name.as_str(), self.at, buf)),
        }
    }

    /// Hands bytes to the file, which was made or is added to, all of them.
    pub fn put(&mut self, tape: &mut Tape, bytes: &[u8]) -> Result<(), PutFault>
    where
        F: Write,
        // where the call isn't refused, the file took all of them
        ensures handed { OnOk result (Appends (F.contents self.old.file) (F.contents self.new.file) bytes.now) }
        ensures log { tape.new.log.calls ≡ tape.old.log.calls ++ Puts (record { name = string_bytes self.old.name; step = step_of self.old.access; bytes = bytes.now; answer = result }) ∷ [] }
        ensures cause { PutFailsOnlyFaulted result tape.old.faults tape.new.faults }
    {
        let step = step(self.access);
        self.synced = false;
        match hand_over(&mut self.file, bytes).1 {
            Ok(()) => {
                tape.took(self.name.as_str(), step, bytes);
                Ok(())
            }
            Err(error) => Err(tape.refuse_put(&error, self.name.as_str(), step, bytes)),
        }
    }

    /// Hands bytes to the file, which takes them for another name, and says how many it took.
    pub fn put_for(
        &mut self,
        tape: &mut Tape,
        name: &str,
        bytes: &[u8],
    ) -> (usize, Result<(), PutFault>)
    where
        F: Write,
        ensures count { result.0 ≤ length bytes.now }
        ensures whole { OnOk result.1 (result.0 ≡ length bytes.now) }
        ensures handed { Appends (F.contents self.old.file) (F.contents self.new.file) (take result.0 bytes.now) }
        ensures named { self.new.name ≡ self.old.name }
        ensures access { self.new.access ≡ self.old.access }
        ensures log { tape.new.log.calls ≡ tape.old.log.calls ++ Puts (record { name = name.now; step = Step.Add; bytes = bytes.now; answer = result.1 }) ∷ [] }
        ensures cause { PutFailsOnlyFaulted result.1 tape.old.faults tape.new.faults }
    {
        self.synced = false;
        let (count, handed) = hand_over(&mut self.file, bytes);
        match handed {
            Ok(()) => {
                tape.took(name, Step::Add, bytes);
                (count, Ok(()))
            }
            Err(error) => (count, Err(tape.refuse_put(&error, name, Step::Add, bytes))),
        }
    }

    /// Waits until all that it took is on the disk.
    fn sync(&mut self) -> io::Result<()>
    where
        F: OpenFile,
        ensures synced { OnOk result (self.new.synced ≡ true) }
    {
        self.file.sync_all()?; // trusted
        self.synced = true;
        Ok(())
    }

    /// Gives it another name, in whose place it is then, whole.
    fn rename<R>(&mut self, rt: &R, name: &str) -> io::Result<()>
    where
        R: Files<File = F>,
        requires { self.old.synced ≡ true }
        ensures placed { OnOk result (self.new.placed ≡ true) }
    {
        fs::rename(rt, self.name.as_str(), name)?; // trusted
        self.placed = true;
        Ok(())
    }

    /// Takes its name away.
    fn remove<R>(&self, rt: &R) -> io::Result<()>
    where
        R: Files<File = F>,
    {
        fs::remove_file(rt, self.name.as_str()) // trusted
    }

    /// Puts a new file, all of which is on the disk, in the place of a name.
    fn put_in_place<R>(&mut self, rt: &R, name: &str) -> io::Result<()>
    where
        R: Files<File = F>,
        F: OpenFile,
        ensures placed { OnOk result (self.new.placed ≡ true) }
    {
        match self.sync() {
            Ok(()) => self.rename(rt, name),
            Err(error) => Err(error),
        }
    }

    /// Puts a new file in the place of a name, and then that on the disk too. Where it isn't put there it
    /// is removed.
    fn settle<R>(&mut self, rt: &R, name: &str) -> io::Result<()>
    where
        R: Files<File = F>,
        F: Read + Write + Seek + OpenFile,
        ensures placed { OnOk result (self.new.placed ≡ true) }
    {
        match self.put_in_place(rt, name) {
            Ok(()) => fs::open(rt, folder_of(name))?.sync_all(), // trusted
            Err(error) => {
                let _ = self.remove(rt);
                Err(error)
            }
        }
    }

    /// Logs for a name that it is in its place.
    fn published(&self, tape: &mut Tape, name: &str)
        requires { self.now.placed ≡ true }
        ensures log { tape.new.log.calls ≡ tape.old.log.calls ++ Puts (record { name = name.now; step = Step.Publish; bytes = []; answer = Ok tt }) ∷ [] }
        ensures faults { tape.new.faults ≡ tape.old.faults }
    {
        tape.took(name, Step::Publish, &[]);
    }

    /// Puts a new file in the place of a target, to which a name leads.
    pub fn publish<R>(
        mut self,
        rt: &R,
        tape: &mut Tape,
        name: &str,
        target: &str,
    ) -> Result<(), PutFault>
    where
        R: Files<File = F>,
        F: Read + Write + Seek + OpenFile,
        ensures log { tape.new.log.calls ≡ tape.old.log.calls ++ Puts (record { name = name.now; step = Step.Publish; bytes = []; answer = result }) ∷ [] }
        ensures cause { PutFailsOnlyFaulted result tape.old.faults tape.new.faults }
    {
        match self.settle(rt, target) {
            Ok(()) => {
                self.published(tape, name);
                Ok(())
            }
            Err(error) => Err(tape.refuse_put(&error, name, Step::Publish, &[])),
        }
    }

    /// Hands bytes over that were held for its name, all of them.
    pub fn pour(&mut self, tape: &mut Tape, bytes: &[u8]) -> Result<(), PutFault>
    where
        F: Write,
        // where the call isn't refused, the file took all of them
        ensures handed { OnOk result (Appends (F.contents self.old.file) (F.contents self.new.file) bytes.now) }
        ensures log { tape.new.log.calls ≡ tape.old.log.calls ++ Puts (record { name = string_bytes self.old.name; step = Step.Publish; bytes = []; answer = result }) ∷ [] }
        ensures cause { PutFailsOnlyFaulted result tape.old.faults tape.new.faults }
    {
        self.synced = false;
        match hand_over(&mut self.file, bytes).1 {
            Ok(()) => {
                tape.took(self.name.as_str(), Step::Publish, &[]);
                Ok(())
            }
            Err(error) => { Err(tape.refuse_put(&error, self.name.as_str(), Step::Publish, &[])) }
        }
    }

    /// Lets a new file go; it is removed.
    pub fn let_go<R>(self, rt: &R)
    where
        R: Files<File = F>,
    {
        let _ = self.remove(rt);
    }

    /// Gives it the mode of the file of a name, where there is one.
    fn take_mode<R>(&self, rt: &R, name: &str) -> io::Result<()>
    where
        R: Files<File = F>,
        F: OpenFile,
    {
        match fs::metadata(rt, name) {
            Ok(known) => self.file.set_permissions(known.permissions()), // trusted
            Err(error) if error.kind() == ErrorKind::NotFound => Ok(()),
            Err(error) => Err(error),
        }
    }

    /// A new file of a name, with the mode of another one, where there is one.
    pub fn make<R>(rt: &R, name: &str, other: &str) -> io::Result<Opened<F>>
    where
        R: Files<File = F> + AllocGlobal,
        F: Read + Write + Seek + OpenFile,
        ensures access { IfOk result (λ o. o.access ≡ Access.New) }
        ensures named { IfOk result (λ o. string_bytes o.name ≡ name.now) }
    {
        let opened = Opened::open(rt, Access::New, name, 0)?;
        match opened.take_mode(rt, other) {
            Ok(()) => Ok(opened),
            Err(error) => {
                let _ = opened.remove(rt);
                Err(error)
            }
        }
    }
}

/// The folder of a name.
pub(super) fn folder_of(name: &str) -> &str {
    match name.rfind('/') {
        Some(0) => "/",
        Some(end) => &name[..end],
        None => ".",
    }
}
