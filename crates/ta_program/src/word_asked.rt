//! Words of a pattern, as the command line asks for them.
#![tactic(auto)]

ghost use Rattle.std.specs.Prelude.{◌≡◌, IfErr, IfOk, option_map};
ghost use Rattle.ta_automaton.specs.Narrow.{IsNarrow};
ghost use Rattle.ta_shelf.specs.Lines.{phrase_text};
ghost use Rattle.ta_smt.specs.declared.fault.WordFault.{WordFault};
ghost use Rattle.ta_smt.specs.Named.{IsWholeWordOf, IsWordOf, WholeFaultOf, WordFaultOf};
ghost use Rattle.ta_program.specs.Export.{word_fault_text};
ghost use Rattle.ta_program.specs.Inside.Found.{WordRefused};
ghost use Rattle.ta_program.specs.Taken.{taken_of};
ghost use Rattle.ta_program.specs.WordAsked.{asked_of, pattern_of};
ghost use Rattle.ta_program.specs.WordSeen.{asked_seen, word_seen};

use crate::limits::VALUES;
use crate::spelled::WordAsked;
use crate::values::file_name_of;
use crate::words::Taken;
use std::alloc::{AllocError, Global};
use ta_automaton::File;
use ta_shelf::{Phrase, Refusal};
use ta_smt::{
    NamedWord, WordFault, are_elements, is_name, named_word, read_elements, start_of, whole_word,
};

/// FILE and the word that the first four plain words ask for.
pub(crate) fn asked_of<'a>(taken: &Taken<'a>) -> Option<WordAsked<'a>>
    ensures { option_map asked_seen result ≡ asked_of (taken_of taken.now) }
{
    let file = file_name_of(taken.plain(0))?;
    let pattern = pattern_of(taken.plain(1))?;
    let start = start_of(taken.plain(2))?;
    let elements = taken.plain(3);
    if !are_elements(elements) {
        return None;
    }
    Some(WordAsked {
        file,
        pattern,
        start,
        elements,
    })
}

/// The name of a pattern that a word is, where it is no keyword.
pub(crate) fn pattern_of(word: &str) -> Option<&str>
    ensures { option_map (λ w. w.now) result ≡ pattern_of word.now }
{
    if is_name(word) { Some(word) } else { None }
}

/// The word of a file that is asked for.
pub(crate) fn find_word<'a>(
    alloc: Global,
    file: &File,
    asked: &WordAsked<'a>,
) -> Result<NamedWord, Refusal<'a>>
    requires narrow { IsNarrow file.now.automaton }
    ensures word { IfOk result (λ w. IsWordOf file.now (asked_seen asked.now).word (word_seen w)) }
    ensures refusal { IfErr result (WordRefused (WordFaultOf file.now (asked_seen asked.now).word) asked.now.file.now) }
{
    match read_elements(alloc, asked.elements) {
        Ok(elements) => {
            match named_word(file, asked.pattern, asked.start, elements.as_slice()) {
                Ok(word) => Ok(word),
                Err(fault) => Err(refused(asked.file, fault)),
            }
        }
        Err(AllocError) => Err(Refusal::Memory),
    }
}

/// The complete word of a file that is asked for.
pub(crate) fn find_whole<'a>(
    alloc: Global,
    file: &File,
    asked: &WordAsked<'a>,
) -> Result<NamedWord, Refusal<'a>>
    requires narrow { IsNarrow file.now.automaton }
    ensures word { IfOk result (λ w. IsWholeWordOf file.now (asked_seen asked.now).word (word_seen w)) }
    ensures refusal { IfErr result (WordRefused (WholeFaultOf file.now (asked_seen asked.now).word) asked.now.file.now) }
{
    match read_elements(alloc, asked.elements) {
        Ok(elements) => {
            match whole_word(file, asked.pattern, asked.start, elements.as_slice()) {
                Ok(word) => Ok(word),
                Err(fault) => Err(refused(asked.file, fault)),
            }
        }
        Err(AllocError) => Err(Refusal::Memory),
    }
}

/// That a file hasn't a word, told of FILE.
fn refused<'a>(name: &'a str, fault: WordFault) -> Refusal<'a>
    ensures { WordRefused (λ f. f ≡ fault) name.now result }
{
    Refusal::Refused {
        number: VALUES.number,
        name,
        why: word_fault_phrase(fault),
    }
}

/// Why a file hasn't a word.
fn word_fault_phrase(fault: WordFault) -> Phrase
    ensures { phrase_text result ≡ word_fault_text fault }
{
    match fault {
        WordFault::Pattern => Phrase::Plain("V1 unknown pattern"),
        WordFault::Start => Phrase::Plain("V2 start set"),
        WordFault::Element(number) => Phrase::One {
            head: "V3 element ",
            number: u128::from(number),
            tail: "",
        },
        WordFault::Incomplete => Phrase::Plain("V4 word not complete"),
    }
}
