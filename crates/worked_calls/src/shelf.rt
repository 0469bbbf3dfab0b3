//! The worked rows of reading and writing, and the adapters over the real thing at work.

ghost use Rattle.ta_shelf.specs.Files.{AreDistinct};

use crate::expecting::{expect, list_of};
use std::alloc::Global;
use std::io::{ErrorKind, Write};
use std::os::fd::AsRawFd;
use std::process::Abort;
use std::{fs, io};
use ta_base::{List, Text};
use ta_shelf::{
    DiskShelf, MemoryShelf, MemorySink, PutFault, QuietShelf, QuietSink, Shelf, SinkFault, StdSink,
    WholeFault, are_distinct, read_whole, write_whole,
};

const TEXT: &[u8] = b"automaton first\n";

/// Adds a file.
fn add_file(
    rt: &impl Abort,
    alloc: Global,
    files: &mut List<(Text, List<u8>)>,
    name: &str,
    bytes: &[u8],
) {
    let name = Text::from_string(String::from_str(alloc, name).expect(rt, "memory"));
    let bytes = list_of(rt, alloc, bytes);
    files.push((name, bytes)).expect(rt, "memory");
}

/// Four files: of 3, 4, no and 20,000 bytes.
fn four_files(rt: &impl Abort, alloc: Global) -> List<(Text, List<u8>)>
    ensures { AreDistinct result }
{
    let mut files = List::empty(alloc);
    add_file(rt, alloc, &mut files, "three", b"abc");
    add_file(rt, alloc, &mut files, "four", b"abcd");
    add_file(rt, alloc, &mut files, "empty", b"");
    let long = vec![in alloc; b'e'; 20_000].expect(rt, "memory");
    add_file(rt, alloc, &mut files, "long", long.as_slice());
    assert!(rt; are_distinct(files.as_slice()));
    files
}

/// A shelf of the four files at which the calls of these numbers fail.
fn memory_shelf(rt: &impl Abort, alloc: Global, failing: &[u64]) -> MemoryShelf {
    let files = four_files(rt, alloc);
    MemoryShelf::new(files, list_of(rt, alloc, failing)).expect(rt, "memory")
}

/// A shelf of the four files at which no call fails.
fn quiet_shelf(rt: &impl Abort, alloc: Global) -> QuietShelf {
    QuietShelf::new(four_files(rt, alloc)).expect(rt, "memory")
}

/// A read of a file of this name up to a limit, and the length or the refusal that is wanted.
type Read = (&'static str, u16, Result<usize, WholeFault>);

/// The length of what was read, or the refusal.
fn length_of(read: Result<List<u8>, WholeFault>) -> Result<usize, WholeFault> {
    Ok(read?.as_slice().len())
}

/// Compares the length or the refusal of a read.
fn expect_read<S: Shelf>(rt: &impl Abort, alloc: Global, shelf: &mut S, read: &Read, name: &str) {
    let (file, limit, want) = read;
    let found = length_of(read_whole(alloc, shelf, file, u64::from(*limit)));
    expect(rt, found == *want, name);
}

/// Whether a shelf has a file of this name with these bytes, or none of this name for `None`.
fn holds_file<S: Shelf>(alloc: Global, shelf: &mut S, name: &str, want: Option<&[u8]>) -> bool {
    match read_whole(alloc, shelf, name, 20_000) {
        Ok(bytes) => want == Some(bytes.as_slice()),
        Err(fault) => want.is_none() && fault == WholeFault::Missing,
    }
}

/// The numbers of the calls that fail at a shelf of the four files, and two reads of it.
const READS: &[(&str, &[u64], Read, Read)] = &[
    (
        "beyond the limit",
        &[0],
        ("three", 3, Ok(3)),
        ("four", 3, Err(WholeFault::TooLong)),
    ),
    (
        "a limit of no bytes",
        &[0],
        ("empty", 0, Ok(0)),
        ("three", 0, Err(WholeFault::TooLong)),
    ),
    (
        "no such file",
        &[0],
        ("gone", 9, Err(WholeFault::Missing)),
        ("gone", 9, Err(WholeFault::Missing)),
    ),
    (
        "more than a buffer",
        &[0],
        ("long", 20_000, Ok(20_000)),
        ("long", 19_999, Err(WholeFault::TooLong)),
    ),
    (
        "the first call fails",
        &[1],
        ("three", 9, Err(WholeFault::Failed)),
        ("three", 9, Ok(3)),
    ),
    (
        "the second call fails",
        &[2],
        ("three", 9, Err(WholeFault::Failed)),
        ("three", 9, Ok(3)),
    ),
    (
        "the third call fails",
        &[3, 9],
        ("three", 9, Ok(3)),
        ("gone", 9, Err(WholeFault::Failed)),
    ),
];

#[test]
fn reads_whole_files(rt: HostRuntime) {
    let alloc = rt.alloc();
    for (name, failing, first, second) in READS {
        let mut shelf = memory_shelf(&rt, alloc, failing);
        expect_read(&rt, alloc, &mut shelf, first, name);
        expect_read(&rt, alloc, &mut shelf, second, name);
    }
    let mut shelf = quiet_shelf(&rt, alloc);
    let same = holds_file(alloc, &mut shelf, "four", Some(b"abcd"));
    expect(&rt, same, "no call fails");
}

/// A sink of so much room that takes so many bytes at a time, the call that fails, the answer of
/// writing the text to it, and the bytes that it has then.
type Wrote = (
    &'static str,
    usize,
    usize,
    u64,
    Result<(), SinkFault>,
    &'static [u8],
);

const WRITES: &[Wrote] = &[
    ("at once", 64, 64, 0, Ok(()), TEXT),
    ("a byte at a time", 16, 1, 17, Ok(()), TEXT),
    ("a call fails", 64, 1, 3, Err(SinkFault::Failed), b"au"),
    ("no room", 0, 64, 0, Err(SinkFault::Stuck { at: 0 }), b""),
    (
        "little room",
        5,
        64,
        0,
        Err(SinkFault::Stuck { at: 5 }),
        b"autom",
    ),
    ("no bytes", 64, 0, 0, Err(SinkFault::Stuck { at: 0 }), b""),
];

#[test]
fn writes_whole_texts(rt: HostRuntime) {
    let alloc = rt.alloc();
    for (name, room, piece, failing, want, bytes) in WRITES {
        let failing = list_of(&rt, alloc, &[*failing]);
        let mut sink = MemorySink::new(alloc, *room, *piece, failing).expect(&rt, "memory");
        expect(&rt, write_whole(&mut sink, TEXT) == *want, name);
        expect(&rt, sink.as_slice() == *bytes, name);
    }
}

#[test]
fn fills_a_quiet_sink(rt: HostRuntime) {
    let mut sink = QuietSink::new(rt.alloc(), 5).expect(&rt, "memory");
    let wrote = write_whole(&mut sink, TEXT);
    expect(&rt, wrote == Err(SinkFault::Stuck { at: 5 }), "the answer");
    expect(&rt, sink.as_slice() == b"autom".as_slice(), "the bytes");
}

/// What a test does to a file.
enum Put {
    Create,
    Append(&'static [u8]),
    /// Puts a file in the making in its place.
    Whole(&'static [u8]),
    /// Lets one go.
    Dropped(&'static [u8]),
}

/// A file in the making, of these bytes.
fn staged<S: Shelf>(shelf: &mut S, name: &str, bytes: &[u8]) -> Result<S::Stage, PutFault> {
    let mut stage = shelf.begin(name)?;
    shelf.add(&mut stage, bytes)?;
    Ok(stage)
}

impl Put {
    /// Does it to the file of a name.
    fn apply<S: Shelf>(&self, shelf: &mut S, name: &str) -> Result<(), PutFault> {
        match self {
            Put::Create => shelf.create(name),
            Put::Append(bytes) => shelf.append(name, bytes),
            Put::Whole(bytes) => {
                let stage = staged(shelf, name, bytes)?;
                shelf.publish(stage)
            }
            Put::Dropped(bytes) => {
                let stage = staged(shelf, name, bytes)?;
                shelf.abandon(stage);
                Ok(())
            }
        }
    }
}

/// The files that a shelf in memory holds after one change, by name, with None for an absent one.
type After = &'static [(&'static str, Option<&'static [u8]>)];

/// A change of the file of a name, and the files after it.
type Change = (&'static str, &'static str, Put, After);

/// What a shelf of the four files holds of these names.
const BEFORE: After = &[
    ("new", None),
    ("three", Some(b"abc")),
    ("four", Some(b"abcd")),
];

/// Changes of a shelf of the four files.
const CHANGES: &[Change] = &[
    (
        "makes a file",
        "new",
        Put::Create,
        &[
            ("new", Some(b"")),
            ("three", Some(b"abc")),
            ("four", Some(b"abcd")),
        ],
    ),
    (
        "empties a file",
        "three",
        Put::Create,
        &[("new", None), ("three", Some(b"")), ("four", Some(b"abcd"))],
    ),
    (
        "adds to a file",
        "three",
        Put::Append(b"xy"),
        &[
            ("new", None),
            ("three", Some(b"abcxy")),
            ("four", Some(b"abcd")),
        ],
    ),
    (
        "adds to no file",
        "new",
        Put::Append(b"xy"),
        &[
            ("new", Some(b"xy")),
            ("three", Some(b"abc")),
            ("four", Some(b"abcd")),
        ],
    ),
    (
        "replaces a file",
        "three",
        Put::Whole(b"xy"),
        &[
            ("new", None),
            ("three", Some(b"xy")),
            ("four", Some(b"abcd")),
        ],
    ),
    (
        "publishes a file",
        "new",
        Put::Whole(b"xy"),
        &[
            ("new", Some(b"xy")),
            ("three", Some(b"abc")),
            ("four", Some(b"abcd")),
        ],
    ),
    ("lets a file go", "three", Put::Dropped(b"xy"), BEFORE),
];

/// Whether a shelf holds these files.
fn holds<S: Shelf>(alloc: Global, shelf: &mut S, files: After) -> bool {
    for (name, want) in files {
        if !holds_file(alloc, shelf, name, *want) {
            return false;
        }
    }
    true
}

/// Makes a change and compares the files after it.
fn expect_put<S: Shelf>(rt: &impl Abort, alloc: Global, shelf: &mut S, change: &Change) {
    let (name, file, put, after) = change;
    expect(rt, put.apply(shelf, file) == Ok(()), name);
    expect(rt, holds(alloc, shelf, after), name);
}

/// Makes a change where that fails, and compares the files after it.
fn expect_no_put<S: Shelf>(rt: &impl Abort, alloc: Global, shelf: &mut S, change: &Change) {
    let (name, file, put, _) = change;
    expect(rt, put.apply(shelf, file) == Err(PutFault::Failed), name);
    expect(rt, holds(alloc, shelf, BEFORE), name);
}

#[test]
fn changes_files_in_memory(rt: HostRuntime) {
    let alloc = rt.alloc();
    for change in CHANGES {
        let mut quiet = quiet_shelf(&rt, alloc);
        expect_put(&rt, alloc, &mut quiet, change);
        let mut shelf = memory_shelf(&rt, alloc, &[1]);
        expect_no_put(&rt, alloc, &mut shelf, change);
        expect_put(&rt, alloc, &mut shelf, change);
    }
}

/// A writer that takes a byte a call, and fails where it has no more room.
#[derive(Drop)]
struct Narrow {
    room: usize,
}

impl Write for Narrow {
    fn write(&mut self, bytes: &[u8]) -> io::Result<usize> {
        if bytes.is_empty() {
            return Ok(0);
        }
        match self.room.checked_sub(1) {
            Some(room) => {
                self.room = room;
                Ok(1)
            }
            None => Err(io::Error::from(ErrorKind::BrokenPipe)),
        }
    }

    fn flush(&mut self) -> io::Result<()> {
        Ok(())
    }
}

#[test]
fn hands_texts_to_writers(rt: HostRuntime) {
    let mut bytes = [0u8; 5];
    let mut short = StdSink::new(bytes.as_mut_slice());
    let wrote = write_whole(&mut short, TEXT);
    drop(short);
    expect(&rt, wrote == Err(SinkFault::Stuck { at: 5 }), "no room");
    expect(&rt, bytes == *b"autom", "the bytes");
    let mut enough = StdSink::new(Narrow { room: 16 });
    let wrote = write_whole(&mut enough, TEXT);
    expect(&rt, wrote == Ok(()), "a byte a call");
    let wrote = write_whole(&mut enough, TEXT);
    expect(&rt, wrote == Err(SinkFault::Failed), "a writer fails");
}

/// So many bytes that differ by their places, also where these are a buffer's length apart.
fn bytes_by_place(rt: &impl Abort, alloc: Global, count: u32) -> Vec<u8> {
    let mut bytes = Vec::new(alloc);
    for place in 0..count {
        bytes.push((place % 251) as u8).expect(rt, "memory");
    }
    bytes
}

/// The byte that a shelf gives of a file at an offset.
fn byte_at<S: Shelf>(shelf: &mut S, name: &str, at: u64) -> Option<u8> {
    let mut byte = [0u8];
    match shelf.read_at(name, at, &mut byte) {
        Ok(1) => Some(byte[0]),
        _ => None,
    }
}

/// Compares the bytes that a shelf gives of a file at these offsets, each behind its name.
fn expect_bytes<S: Shelf>(
    rt: &impl Abort,
    shelf: &mut S,
    file: &str,
    bytes: &[(&str, u64, Option<u8>)],
) {
    for (name, at, want) in bytes {
        expect(rt, byte_at(shelf, file, *at) == *want, name);
    }
}

const LONG: &str = "ta_shelf_test_file";

/// Bytes of the long file, or none, each at its offset.
const BYTES: &[(&str, u64, Option<u8>)] = &[
    ("behind a buffer", 16_384, Some(69)),
    ("byte 5", 5, Some(5)),
    ("byte 6", 6, Some(6)),
    ("byte 12,000", 12_000, Some(203)),
    ("the end", 20_000, None),
];

/// Reads of a folder with the long file.
const REAL_READS: &[(&str, Read)] = &[
    ("too long", (LONG, 19_999, Err(WholeFault::TooLong))),
    ("as long as the limit", (LONG, 20_000, Ok(20_000))),
    (
        "no such file",
        ("ta_shelf_test_no_file", 3, Err(WholeFault::Missing)),
    ),
    ("a folder", (".", 3, Err(WholeFault::Failed))),
];

#[test]
fn reads_real_files(rt: HostRuntime) {
    let alloc = rt.alloc();
    let bytes = bytes_by_place(&rt, alloc, 20_000);
    fs::write(&rt, LONG, bytes.as_slice()).expect(&rt, LONG);
    let mut shelf = DiskShelf::new(rt);
    for (name, read) in REAL_READS {
        expect_read(&rt, alloc, &mut shelf, read, name);
    }
    let same = holds_file(alloc, &mut shelf, LONG, Some(bytes.as_slice()));
    expect(&rt, same, "all bytes");
    expect_bytes(&rt, &mut shelf, LONG, BYTES);
    fs::remove_file(&rt, LONG).expect(&rt, LONG);
}

#[test]
fn reads_on_in_one_file(rt: HostRuntime) {
    let file = "ta_shelf_test_swapped_file";
    let newer = "ta_shelf_test_newer_file";
    fs::write(&rt, file, b"old".as_slice()).expect(&rt, file);
    fs::write(&rt, newer, b"new".as_slice()).expect(&rt, newer);
    let mut shelf = DiskShelf::new(rt);
    expect(&rt, byte_at(&mut shelf, file, 0) == Some(b'o'), "old file");
    fs::rename(&rt, newer, file).expect(&rt, newer);
    expect(&rt, byte_at(&mut shelf, file, 1) == Some(b'l'), "byte 1");
    expect(&rt, byte_at(&mut shelf, file, 0) == Some(b'n'), "byte 0");
    expect(&rt, byte_at(&mut shelf, file, 2) == Some(b'w'), "byte 2");
    fs::remove_file(&rt, file).expect(&rt, file);
}

#[test]
fn reads_pipes(rt: HostRuntime) {
    let alloc = rt.alloc();
    let bytes = bytes_by_place(&rt, alloc, 20_000);
    let (reader, mut writer) = io::pipe(&rt).expect(&rt, "a pipe");
    writer.write_all(bytes.as_slice()).expect(&rt, "a pipe");
    drop(writer);
    let file = format!(in alloc; "/proc/self/fd/{}", reader.as_raw_fd()).expect(&rt, "memory");
    let mut shelf = DiskShelf::new(rt);
    let same = holds_file(alloc, &mut shelf, file.as_str(), Some(bytes.as_slice()));
    expect(&rt, same, "the bytes of a pipe");
}

/// Changes of a file, each with what it holds then.
const GROWS: &[(&str, Put, &[u8])] = &[
    ("makes it", Put::Create, b""),
    ("adds to it", Put::Append(b"ab"), b"ab"),
    ("adds to it again", Put::Append(b"cde"), b"abcde"),
    ("replaces it", Put::Whole(b"xyz"), b"xyz"),
    ("lets a file go", Put::Dropped(b"uvw"), b"xyz"),
    ("empties it", Put::Create, b""),
];

/// Makes each change of a file, and then of a folder, where it fails.
fn expect_growth<S: Shelf>(rt: &impl Abort, alloc: Global, shelf: &mut S, file: &str) {
    for (name, put, want) in GROWS {
        expect(rt, put.apply(shelf, file) == Ok(()), name);
        expect(rt, holds_file(alloc, shelf, file, Some(*want)), name);
        expect(rt, put.apply(shelf, ".") == Err(PutFault::Failed), name);
    }
}

#[test]
fn changes_real_files(rt: HostRuntime) {
    let file = "ta_shelf_test_changed_file";
    let mut shelf = DiskShelf::new(rt);
    expect_growth(&rt, rt.alloc(), &mut shelf, file);
    fs::remove_file(&rt, file).expect(&rt, file);
}
