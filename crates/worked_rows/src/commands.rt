//! Rows of the commands, over files and sinks in memory.
#![tactic(auto)]

use crate::files::Files;
use crate::given::Given;
use crate::growing::Growing;
use crate::noting::Noting;
use crate::table::cut;
use std::alloc::{AllocError, Global};
use std::thread::Threads;
use ta_base::limits::CERTIFICATE_BYTES;
use ta_base::{List, Text};
use ta_program::run;
use ta_shelf::{MemoryShelf, MemorySink, Shelf, are_distinct, read_whole};

/// What fails in a run: the calls of the shelf and of the output with these numbers, where 0 is
/// none; how many bytes the output has room for, and how many it takes at once.
#[derive(Clone, Copy, Drop)]
struct Setting {
    shelf: u64,
    out: u64,
    room: usize,
    piece: usize,
}

/// Nothing fails, and there is room.
const CALM: Setting = Setting {
    shelf: 0,
    out: 0,
    room: 65536,
    piece: 65536,
};

/// What words give: the output, the line on standard error behind `! `, the calls that read behind
/// `@`, where they are asked for, and the number behind `=> `.
pub fn perform<R: Threads + Sync>(
    rt: &R,
    given: &mut Given,
    files: &Files,
    rest: &str,
    noted: bool,
) -> Result<(), AllocError> {
    let mut shelf = shelf_of(given.alloc, files, setting_of(rest).shelf)?;
    perform_over(rt, given, files, &mut shelf, rest, noted)
}

/// The same, and behind it the lines of the text that a file then has, each behind `> `; the text is kept.
pub fn put<R: Threads + Sync>(
    rt: &R,
    given: &mut Given,
    files: &mut Files,
    rest: &str,
) -> Result<(), AllocError> {
    let (name, rest) = cut(rest);
    let mut shelf = shelf_of(given.alloc, files, setting_of(rest).shelf)?;
    let ended = perform_over(rt, given, files, &mut shelf, rest, false);
    ended.and(keep(given, files, &mut shelf, name))
}

/// Keeps the text that a file of a shelf has, and writes its lines.
fn keep<S: Shelf>(
    given: &mut Given,
    files: &mut Files,
    shelf: &mut S,
    name: &str,
) -> Result<(), AllocError> {
    let Ok(bytes) = read_whole(given.alloc, shelf, name, CERTIFICATE_BYTES) else {
        return Ok(());
    };
    given.say("\n");
    say_lines(given, "> ", bytes.as_slice());
    let text = std::str::from_utf8(bytes.as_slice()).unwrap_or("");
    files.set(given.alloc, name, text)
}

/// The settings among words.
fn setting_of(rest: &str) -> Setting {
    let mut setting = CALM;
    for word in rest.split(" ") {
        setting.takes(word);
    }
    setting
}

/// The words that are no settings. `''` is an empty one.
fn words_of(alloc: Global, rest: &str) -> Result<Vec<&str>, AllocError> {
    let mut words = Vec::new(alloc);
    let mut setting = CALM;
    for word in rest.split(" ") {
        if !setting.takes(word) {
            words.push(word.strip_prefix("''").unwrap_or(word))?;
        }
    }
    Ok(words)
}

/// What words give over a shelf of these files.
fn perform_over<R: Threads + Sync, S: Shelf + Drop>(
    rt: &R,
    given: &mut Given,
    files: &Files,
    shelf: &mut Noting<S>,
    rest: &str,
    noted: bool,
) -> Result<(), AllocError> {
    let words = words_of(given.alloc, rest)?;
    let ended = say_run(rt, given, files, shelf, words.as_slice(), setting_of(rest));
    drop(words);
    let number = ended?;
    if noted {
        given.say("@");
        given.add(&shelf.noted);
        given.say("\n");
    }
    given.number("=> ", number);
    Ok(())
}

/// Writes what a run of `tav` puts out.
fn say_run<R: Threads + Sync, S: Shelf + Drop>(
    rt: &R,
    given: &mut Given,
    files: &Files,
    shelf: &mut Noting<S>,
    words: &[&str],
    setting: Setting,
) -> Result<u8, AllocError> {
    let (mut out, mut err) = sinks_of(given.alloc, setting)?;
    let number = run(rt, given.alloc, words, shelf, &mut out, &mut err);
    say_lines(given, "", out.as_slice());
    say_error(given, files, err.as_slice());
    Ok(number)
}

/// What words give where a file goes on with spaces behind its text, up to so many bytes, which are
/// made as they are asked for.
pub fn grown<R: Threads + Sync>(
    rt: &R,
    given: &mut Given,
    files: &Files,
    rest: &str,
) -> Result<(), AllocError> {
    let (name, rest) = cut(rest);
    let (length, words) = cut(rest);
    let mut shelf = Noting {
        shelf: Growing::new(files, name, length.parse::<u64>().unwrap_or(0)),
        noted: Given::new(given.alloc),
    };
    perform_over(rt, given, files, &mut shelf, words, false)
}

/// The output, and standard error.
fn sinks_of(alloc: Global, setting: Setting) -> Result<(MemorySink, MemorySink), AllocError> {
    let out = sink_of(alloc, setting.room, setting.piece, setting.out)?;
    let err = sink_of(alloc, 4096, 4096, 0)?;
    Ok((out, err))
}

/// A sink, of which the call with a number fails.
fn sink_of(alloc: Global, room: usize, piece: usize, fails: u64) -> Result<MemorySink, AllocError> {
    let fails = List::from_vec(vec![in alloc; fails]?);
    MemorySink::new(alloc, room, piece, fails)
}

/// Writes what came on standard error. `! usage` stands for the text of the row `usage`.
fn say_error(given: &mut Given, files: &Files, err: &[u8]) {
    if !err.is_empty() && err == files.text("usage").as_bytes() {
        given.say("! usage\n");
    } else {
        say_lines(given, "! ", err);
    }
}

/// What words give where a file ends after its first bytes, for each length below its own; an answer
/// stands once, behind the first length that has it.
pub fn cuts<R: Threads + Sync>(
    rt: &R,
    given: &mut Given,
    files: &mut Files,
    rest: &str,
) -> Result<(), AllocError> {
    let (name, words) = cut(rest);
    let mut whole = Given::new(given.alloc);
    whole.say(files.text(name));
    let ended = cuts_of(rt, given, files, name, words, whole.as_str());
    ended.and(files.set(given.alloc, name, whole.as_str()))
}

fn cuts_of<R: Threads + Sync>(
    rt: &R,
    given: &mut Given,
    files: &mut Files,
    name: &str,
    words: &str,
    whole: &str,
) -> Result<(), AllocError> {
    let mut last = Given::new(given.alloc);
    for length in 0..whole.len() {
        files.set(given.alloc, name, whole.get(..length).unwrap_or(""))?;
        let mut answer = Given::new(given.alloc);
        let ended = perform(rt, &mut answer, files, words, false);
        say_change(given, length, answer, &mut last);
        ended?;
    }
    Ok(())
}

/// Writes an answer, unless it is the last one; then it is that.
fn say_change(given: &mut Given, length: usize, answer: Given, last: &mut Given) {
    if answer.as_str() != last.as_str() {
        given.number("from ", length);
        given.say("\n");
        given.add(&answer);
        given.say("\n");
        *last = answer;
    }
}

/// The files, on a shelf. Where two have one name, which `Files` prevents, memory is said to have run out.
fn shelf_of(alloc: Global, files: &Files, fails: u64) -> Result<Noting<MemoryShelf>, AllocError> {
    let mut list = Vec::new(alloc);
    for file in files.all() {
        let name = Text::from_string(file.0.clone()?);
        list.push((name, List::from_vec(file.1.as_bytes().to_vec(alloc)?)))?;
    }
    let fails = List::from_vec(vec![in alloc; fails]?);
    if !are_distinct(list.as_slice()) {
        return Err(AllocError);
    }
    Ok(Noting {
        shelf: MemoryShelf::new(List::from_vec(list), fails)?,
        noted: Given::new(alloc),
    })
}

impl Setting {
    /// Whether a word is empty, or a setting, which is then taken.
    fn takes(&mut self, word: &str) -> bool {
        let Some((name, value)) = word.split_once(":") else {
            return word.is_empty();
        };
        let value = value.parse::<u16>().unwrap_or(0);
        match name {
            "shelf" => self.shelf = u64::from(value),
            "out" => self.out = u64::from(value),
            "room" => self.room = usize::from(value),
            "piece" => self.piece = usize::from(value),
            _ => return false,
        }
        true
    }
}

/// Writes lines, each behind a mark; one that isn't ended has `..` at its end.
fn say_lines(given: &mut Given, mark: &str, bytes: &[u8]) {
    let Ok(text) = std::str::from_utf8(bytes) else {
        return given.say("no text\n");
    };
    for line in text.lines() {
        given.say(mark);
        given.say(line);
        given.say("\n");
    }
    if !text.is_empty() && !text.ends_with("\n") {
        given.say("..\n");
    }
}
