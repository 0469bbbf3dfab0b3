//! A shelf that makes the bytes of a long file as they are asked for.
#![tactic(auto)]

ghost use Rattle.std.specs.Prelude.{◌≡◌, ◌≤◌, ◌++◌, ◌∷◌, [], Err, None, length};
ghost use Rattle.ta_shelf.specs.Calls.{Puts};

use crate::files::Files;
use ta_shelf::{Log, MemoryStage, PutFault, Shelf, ShelfFault, Step};

/// Files, one of which goes on with spaces behind its text, up to so many bytes. None can be changed.
#[derive(Drop)]
pub struct Growing<'a> {
    files: &'a Files,
    name: &'a str,
    length: u64,
    log: Log,
}

impl<'a> Growing<'a> {
    pub fn new(files: &'a Files, name: &'a str, length: u64) -> Growing<'a> {
        Growing {
            files,
            name,
            length,
            log: Log::new(),
        }
    }

    /// Refuses a change, for want of memory.
    fn refuse(&mut self, name: &str, step: Step, bytes: &[u8]) -> Result<(), PutFault>
        ensures refused { result ≡ Err PutFault.Memory }
        ensures log { self.new.log.calls ≡ self.old.log.calls ++ Puts (record { name = name.now; step = step; bytes = bytes.now; answer = Err PutFault.Memory }) ∷ [] }
    {
        self.log.put(name, step, bytes, Err(PutFault::Memory));
        Err(PutFault::Memory)
    }

    /// How many bytes the file of a name has.
    fn length_of(&self, name: &str) -> u64 {
        if name == self.name {
            self.length
        } else {
            self.files.text(name).len() as u64
        }
    }
}

/// Fills a buffer with so many bytes of a text from an offset on, behind which spaces follow.
fn fill(text: &[u8], at: u64, left: u64, buf: &mut [u8]) -> usize
    ensures { result ≤ length buf.new }
{
    let count = (buf.len() as u64).min(left) as usize;
    buf[..count].fill(b' ');
    if at < text.len() as u64 {
        let rest = &text[at as usize..];
        let known = rest.len().min(count);
        buf[..known].copy_from_slice(&rest[..known]);
    }
    count
}

impl Shelf for Growing<'_> {
    type Stage = MemoryStage;

    ghost files = { λ s. None };

    ghost faults = { λ s. 0 };

    ghost calls = { λ s. s.log.calls };

    ghost wants_memory = { Unit {0} };

    ghost stage_name = { λ stage. stage.name };

    ghost stage_bytes = { λ stage. stage.bytes };

    fn read_at(&mut self, name: &str, at: u64, buf: &mut [u8]) -> Result<usize, ShelfFault> {
        let left = self.length_of(name).saturating_sub(at);
        let answer = Ok(fill(self.files.text(name).as_bytes(), at, left, buf));
        self.log.add(name, at, buf, answer);
        answer
    }

    fn keeps_bytes(&mut self, _name: &str) -> bool {
        true
    }

    fn same_place(&mut self, name: &str, other: &str) -> Result<bool, ShelfFault> {
        let answer = Ok(name == other);
        self.log.ask_place(name, other, answer);
        answer
    }

    fn create(&mut self, name: &str) -> Result<(), PutFault> {
        self.refuse(name, Step::Create, &[])
    }

    fn append(&mut self, name: &str, bytes: &[u8]) -> Result<(), PutFault> {
        self.refuse(name, Step::Append, bytes)
    }

    fn begin(&mut self, name: &str) -> Result<MemoryStage, PutFault> {
        match self.refuse(name, Step::Begin, &[]) {
            Ok(()) => Err(PutFault::Memory),
            Err(fault) => Err(fault),
        }
    }

    fn add(&mut self, stage: &mut MemoryStage, bytes: &[u8]) -> Result<(), PutFault> {
        self.refuse(stage.name.as_str(), Step::Add, bytes)
    }

    fn publish(&mut self, stage: MemoryStage) -> Result<(), PutFault> {
        self.refuse(stage.name.as_str(), Step::Publish, &[])
    }

    fn abandon(&mut self, stage: MemoryStage) {
        self.log
            .put(stage.name.as_str(), Step::Abandon, &[], Ok(()));
    }
}
