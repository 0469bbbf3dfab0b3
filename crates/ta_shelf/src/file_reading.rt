//! Reading the files of a command.
#![tactic(auto)]

ghost use Rattle.std.specs.Prelude.{◌≡◌, ◌≤◌};
ghost use Rattle.ta_shelf.specs.Calls.{Grew};
ghost use Rattle.ta_shelf.specs.Lines.{longer_than, missing as missing_words};
ghost use Rattle.ta_shelf.specs.Reading.{ReadCause, ReadsFile, SaysLong, SaysOfFile, UnreadBy};

use crate::answer::Refusal;
use crate::phrase::Phrase;
use crate::{Shelf, ShelfFault, WholeFault, read_whole};
use std::alloc::Global;
use ta_base::List;
use ta_base::limits::CERTIFICATE_BYTES;

/// How many bytes a file may have, and the number that the process ends with where it is no use.
#[derive(Clone, Copy, Drop)]
pub struct Limit {
    pub bytes: u64,
    pub number: u8,
}

/// The bytes of a file. What they say is judged by others.
pub fn read_text<'a, S: Shelf>(
    alloc: Global,
    shelf: &mut S,
    name: &'a str,
    limit: Limit,
) -> Result<List<u8>, Refusal<'a>>
    requires { limit.bytes ≤ CERTIFICATE_BYTES }
    ensures reads { Grew (ReadsFile (S.files shelf.old) name.now limit result) (S.calls shelf.old) (S.calls shelf.new) }
    ensures cause { ReadCause result (S.faults shelf.old) (S.faults shelf.new) }
    ensures kept { S.files shelf.new ≡ S.files shelf.old }
{
    match read_whole(alloc, shelf, name, limit.bytes) {
        Ok(bytes) => Ok(bytes),
        Err(WholeFault::Missing) => Err(missing(name, limit)),
        Err(WholeFault::TooLong) => Err(too_long(name, limit)),
        Err(WholeFault::Failed) => Err(Refusal::ReadFailed { name }),
        Err(WholeFault::Memory) => Err(Refusal::Memory),
    }
}

/// That a file is missing.
fn missing<'a>(name: &'a str, limit: Limit) -> Refusal<'a>
    ensures { SaysOfFile limit name.now missing_words result }
{
    Refusal::Refused {
        number: limit.number,
        name,
        why: Phrase::Plain("missing"),
    }
}

/// That a file is too long.
pub fn too_long<'a>(name: &'a str, limit: Limit) -> Refusal<'a>
    ensures { SaysOfFile limit name.now (longer_than limit.bytes) result }
{
    Refusal::Refused {
        number: limit.number,
        name,
        why: Phrase::One {
            head: "longer than ",
            number: limit.bytes as u128,
            tail: " bytes",
        },
    }
}

/// That a certificate is too long, told of the file that it is for.
pub fn long_certificate<'a>(name: &'a str) -> Refusal<'a>
    ensures { SaysLong name.now result }
{
    Refusal::Refused {
        number: 4,
        name,
        why: Phrase::One {
            head: "certificate longer than ",
            number: CERTIFICATE_BYTES as u128,
            tail: " bytes",
        },
    }
}

/// Why a read of a file was refused.
pub fn unread<'a>(name: &'a str, limit: Limit, fault: ShelfFault) -> Refusal<'a>
    ensures { UnreadBy limit name.now fault result }
{
    match fault {
        ShelfFault::Missing => missing(name, limit),
        ShelfFault::Failed => Refusal::ReadFailed { name },
        ShelfFault::Memory => Refusal::Memory,
    }
}
