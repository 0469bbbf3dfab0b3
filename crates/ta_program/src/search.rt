//! The command `search`.
#![tactic(auto)]

ghost use Rattle.std.specs.List.{concat};
ghost use Rattle.std.specs.Prelude.{◌≡◌, ◌≤◌, ◌<◌, ◌++◌, [], decimal, IfOk, IfSome, IsSome, length, map, MatchOption, OnOk, Option, option_map, Some};
ghost use Rattle.ta_base.specs.declared.limits.Limits.{Limits};
ghost use Rattle.ta_search.specs.Filling.{filled_text};
ghost use Rattle.ta_shelf.specs.Calls.{Grew};
ghost use Rattle.ta_shelf.specs.Put.{Told};
ghost use Rattle.ta_shelf.specs.Commands.{Says};
ghost use Rattle.ta_shelf.specs.Lines.{phrase_text};
ghost use Rattle.ta_shelf.specs.Puts.{content_bytes, output_names, put_text};
ghost use Rattle.ta_shelf.specs.Reading.{ReadCause};
ghost use Rattle.ta_shelf.specs.Sparing.{SparedStage};
ghost use Rattle.ta_shelf.specs.Stages.{MeantBy};
ghost use Rattle.ta_program.specs.declared.limits.TheConstants.{CERTIFICATE as CERTIFICATE_LIMIT};
ghost use Rattle.ta_program.specs.Inside.FoundFiles.{IsFoundEnd, FoundBy, LastGives};
ghost use Rattle.ta_program.specs.Search.{end_number, found_files, found_meaning, leaves_unknown, search_meaning, template_fault_text, template_kind, with_given};
ghost use Rattle.ta_program.specs.SearchSeen.{search_seen};
ghost use Rattle.ta_program.specs.SearchWords.{search_taken, search_words, terms_of};
ghost use Rattle.ta_program.specs.Taken.{taken_of};
ghost use Rattle.ta_program.specs.Values.{limits_of};

use crate::budget::Budget;
use crate::certified::{are_within, put_of};
use crate::limits::{CERTIFICATE, FILE_NUMBER, file_limit};
use crate::request::Request;
use crate::values::{budget_of, file_name_of, filled_of, limits_of, out_of, wide_of};
use crate::words::{
    CERTIFICATE_OPTION, JSON_OPTION, LAZY_OPTION, NODES_OPTION, OptionWord, Taken, WIDE_OPTION,
    take_words,
};
use std::alloc::{AllocError, Global};
use std::thread::Threads;
use ta_base::limits::FILE_BYTES;
use ta_base::{List, Text};
use ta_search::{
    Outcome, SearchEnd, Template, TemplateFault, Terms, Tried, fill, read_template, search,
    search_told, searches_are_determined,
};
use ta_shelf::{
    Answer, Command, Content, Outputs, Phrase, Put, Refusal, Shelf, long_certificate, read_text,
    spare_read,
};

/// What `search` is asked for.
#[derive(Drop)]
pub(crate) struct Search<'a> {
    file: &'a str,
    budget: Budget,
    out: Option<&'a str>,
    filled: Option<&'a str>,
    json: bool,
}

impl<'a> Request<'a> for Search<'a> {
    ghost use Rattle.ta_program.specs.Search.{search_asked};

    ghost asked = { search_asked };

    fn read(words: &[&'a str]) -> Option<Search<'a>> {
        // the law by which told files leave one answer; the call does nothing
        searches_are_determined();
        read_search(words)
    }
}

impl<'a> Command for Search<'a> {
    ghost use Rattle.ta_program.specs.Search.{search_meaning};
    ghost use Rattle.ta_program.specs.SearchSeen.{search_seen};

    ghost meaning = { λ command. search_meaning (search_seen command) };

    fn outputs(&self) -> Outputs<'_> {
        self.may_put()
    }

    fn judge<R: Threads + Sync, S: Shelf>(
        &self,
        rt: &R,
        alloc: Global,
        shelf: &mut S,
    ) -> Result<Answer, Refusal<'_>> {
        judge_search(rt, alloc, shelf, self)
    }
}

impl<'a> Search<'a> {
    ghost use Rattle.std.specs.Prelude.{◌≡◌};
    ghost use Rattle.ta_program.specs.Search.{found_names};
    ghost use Rattle.ta_program.specs.SearchSeen.{search_seen};
    ghost use Rattle.ta_program.specs.SearchWords.{terms_of};
    ghost use Rattle.ta_shelf.specs.Puts.{output_names};

    /// The budget of each pattern, and the limits of filled texts.
    fn terms(&self) -> Terms
        ensures { result ≡ terms_of (search_seen self.now) }
    {
        Terms {
            budget: self.budget.given,
            limits: limits_of(self.budget.wide),
        }
    }

    /// The names of the files that it may put on the shelf.
    fn may_put(&self) -> Outputs<'a>
        ensures { output_names result ≡ found_names (search_seen self.now) }
    {
        Outputs {
            first: self.filled,
            second: self.out,
        }
    }
}

/// Reads the words of `search`.
fn read_search<'a>(words: &[&'a str]) -> Option<Search<'a>>
    ensures { option_map search_seen result ≡ search_words (map (λ w. w.now) words.now) }
{
    let options = [
        NODES_OPTION,
        CERTIFICATE_OPTION,
        OptionWord {
            word: "--filled",
            valued: true,
        },
        LAZY_OPTION,
        JSON_OPTION,
        WIDE_OPTION,
    ];
    search_taken(take_words(1, &options, words)?)
}

/// What is asked for by what was taken of the words.
fn search_taken(taken: Taken<'_>) -> Option<Search<'_>>
    ensures { option_map search_seen result ≡ search_taken (taken_of taken.entry) }
{
    let file = file_name_of(taken.plain(0))?;
    let nodes = budget_of(taken.value(0))?;
    let out = out_of(file, taken.value(1))?;
    let filled = filled_of(file, out, taken.value(2))?;
    let lazy = taken.value(3).is_some();
    let wide = wide_of(taken.value(5).is_some(), lazy)?;
    Some(Search {
        file,
        budget: Budget {
            given: ta_verdict::Budget { nodes, lazy },
            wide,
        },
        out,
        filled,
        json: taken.value(4).is_some(),
    })
}

/// Reads a template, which OUT2 and OUT are not to destroy, tries values in its holes, and puts what was
/// found in the files that are asked for.
fn judge_search<'a, R: Threads + Sync, S: Shelf>(
    rt: &R,
    alloc: Global,
    shelf: &mut S,
    asked: &Search<'a>,
) -> Result<Answer, Refusal<'a>>
    ensures says { Grew (Says (search_meaning (search_seen asked.now)) (S.files shelf.old) result) (S.calls shelf.old) (S.calls shelf.new) }
    ensures cause { ReadCause result (S.faults shelf.old) (S.faults shelf.new) }
    ensures kept { S.files shelf.new ≡ S.files shelf.old }
{
    match read_searched(
        alloc,
        shelf,
        asked.file,
        asked.budget.wide,
        &asked.may_put(),
    ) {
        Ok(template) => answer_search(rt, alloc, &template, asked),
        Err(refusal) => Err(refusal),
    }
}

/// The template that a name's bytes are the text of, unless an output holds just these bytes, or two
/// outputs lead to one place.
fn read_searched<'a, S: Shelf>(
    alloc: Global,
    shelf: &mut S,
    name: &'a str,
    is_wide: bool,
    outputs: &Outputs<'a>,
) -> Result<Template, Refusal<'a>>
    ensures stage { Grew (SparedStage (template_kind (limits_of is_wide)) (λ template. template) (S.files shelf.old) name.now (output_names outputs.now) result) (S.calls shelf.old) (S.calls shelf.new) }
    ensures cause { ReadCause result (S.faults shelf.old) (S.faults shelf.new) }
    ensures kept { S.files shelf.new ≡ S.files shelf.old }
{
    match read_text(alloc, shelf, name, file_limit(is_wide)) {
        Ok(bytes) => match template_of(alloc, name, bytes.as_slice()) {
            Ok(template) => match spare_read(shelf, outputs, bytes.as_slice()) {
                Ok(()) => Ok(template),
                Err(refusal) => Err(refusal),
            },
            Err(refusal) => Err(refusal),
        },
        Err(refusal) => Err(refusal),
    }
}

/// The template that bytes of a name are the text of.
fn template_of<'a>(alloc: Global, name: &'a str, bytes: &[u8]) -> Result<Template, Refusal<'a>>
    requires { length bytes.now ≤ FILE_BYTES }
    ensures meant { (l : Limits) → MeantBy (template_kind l) (λ template. template) name.now bytes.now result }
    ensures cause { ReadCause result 0 0 }
{
    match read_template(alloc, bytes) {
        Ok(template) => Ok(template),
        Err(TemplateFault::Memory) => Err(Refusal::Memory),
        Err(fault) => Err(Refusal::Refused {
            number: FILE_NUMBER,
            name,
            why: template_fault_phrase(&fault),
        }),
    }
}

/// Why a text is no template.
fn template_fault_phrase(fault: &TemplateFault) -> Phrase
    ensures { phrase_text result ≡ template_fault_text fault.now }
{
    match *fault {
        TemplateFault::Line(line) => said_at("S1 malformed at line ", line),
        TemplateFault::Repeated(line) => said_at("S2 repeated hole at line ", line),
        TemplateFault::Range(line) => said_at("S3 range at line ", line),
        TemplateFault::TooMany(line) => said_at("S4 too many at line ", line),
        TemplateFault::UnknownHole(offset) => said_at("S5 unknown hole at offset ", offset),
        TemplateFault::Memory => Phrase::Plain("out of memory"),
    }
}

/// Words, and a place.
fn said_at(head: &'static str, place: u32) -> Phrase
    ensures { phrase_text result ≡ head.now ++ decimal place }
{
    Phrase::One {
        head,
        number: u128::from(place),
        tail: "",
    }
}

/// The answer with the end of the search of a template.
fn answer_search<'a, R: Threads + Sync>(
    rt: &R,
    alloc: Global,
    template: &Template,
    asked: &Search<'a>,
) -> Result<Answer, Refusal<'a>>
    ensures says { (files : Option Told) → Says (found_meaning (search_seen asked.now) template.now) files result [] }
    ensures cause { ReadCause result 0 0 }
{
    let terms = asked.terms();
    let Ok(end) = search(rt, alloc, template, terms) else {
        return Err(Refusal::Memory);
    };
    let Ok(told) = search_told(alloc, asked.json, template, &end) else {
        return Err(Refusal::Memory);
    };
    let text = Text::from_string(told.into_string());
    if end.found {
        answer_found(alloc, template, end, text, asked)
    } else {
        Ok(Answer::writing(alloc, end_number(&end), text))
    }
}

/// The number of a search's end: 0 where values were found, else 2 where some outcome is unknown,
/// else 1.
fn end_number(end: &SearchEnd) -> u8
    ensures { result ≡ end_number end.now }
{
    if end.found {
        0
    } else if end.tried.as_slice().iter().any(leaves_unknown) {
        2
    } else {
        1
    }
}

/// Whether an outcome leaves the parameters or a pattern unknown.
fn leaves_unknown(tried: &Tried) -> bool
    ensures { result ≡ leaves_unknown tried.now.outcome }
{
    matches!(
        tried.outcome,
        Outcome::SampleUnknown(_) | Outcome::Unknown { .. }
    )
}

/// The answer with the files of what was found.
fn answer_found<'a>(
    alloc: Global,
    template: &Template,
    end: SearchEnd,
    text: Text,
    asked: &Search<'a>,
) -> Result<Answer, Refusal<'a>>
    requires { IsFoundEnd template.now (terms_of (search_seen asked.now)) asked.now.json end text }
    ensures says { (files : Option Told) → Says (found_meaning (search_seen asked.now) template.now) files result [] }
    ensures cause { ReadCause result 0 0 }
{
    match last_of(end) {
        Some(last) => put_last(alloc, template, last, text, asked),
        None => Err(Refusal::Memory),
    }
}

/// Values with which every pattern is safe, and the pieces of the certificate.
#[derive(Drop)]
struct Last {
    values: ta_base::List<u32>,
    pieces: List<Text>,
}

/// What was found: the last that was tried.
fn last_of(end: SearchEnd) -> Option<Last>
    ensures { IfSome result (λ last. LastGives end last.values (concat last.pieces)) }
{
    let mut tried = end.tried.into_vec();
    let Some(last) = tried.pop() else {
        return None;
    };
    let Tried { values, outcome } = last;
    match outcome {
        Outcome::Safe { certificate } => Some(Last {
            values,
            pieces: certificate.into_pieces(),
        }),
        _ => None,
    }
}

/// The answer with the text of a search and the files of what was found, unless the certificate is
/// asked for and too long.
fn put_last<'a>(
    alloc: Global,
    template: &Template,
    last: Last,
    text: Text,
    asked: &Search<'a>,
) -> Result<Answer, Refusal<'a>>
    requires { FoundBy template.now (terms_of (search_seen asked.now)) asked.now.json last.values (concat last.pieces) text }
    ensures says { (files : Option Told) → Says (found_meaning (search_seen asked.now) template.now) files result [] }
    ensures cause { ReadCause result 0 0 }
{
    match long_name(last.pieces.as_slice(), asked.out) {
        Some(name) => Err(long_certificate(name)),
        None => put_short(alloc, template, last, text, asked),
    }
}

/// The answer with the text of a search and the files of what was found, whose certificate isn't too
/// long.
fn put_short<'a>(
    alloc: Global,
    template: &Template,
    last: Last,
    text: Text,
    asked: &Search<'a>,
) -> Result<Answer, Refusal<'a>>
    requires found { FoundBy template.now (terms_of (search_seen asked.now)) asked.now.json last.values (concat last.pieces) text }
    requires within { IsSome (search_seen asked.now).out → length (concat last.pieces) ≤ CERTIFICATE_LIMIT.bytes }
    ensures says { (files : Option Told) → Says (found_meaning (search_seen asked.now) template.now) files result [] }
    ensures cause { ReadCause result 0 0 }
{
    match found_puts(alloc, template, last, asked) {
        Ok(puts) => Ok(Answer {
            number: 0,
            text,
            puts: List::from_vec(puts),
        }),
        Err(AllocError) => Err(Refusal::Memory),
    }
}

/// The name under which a certificate is asked for that is longer than one may be.
fn long_name<'a>(pieces: &[Text], out: Option<&'a str>) -> Option<&'a str>
    ensures { MatchOption result (IsSome (option_map (λ w. w.now) out.entry) → length (concat pieces.now) ≤ CERTIFICATE_LIMIT.bytes) (λ name. (option_map (λ w. w.now) out.entry ≡ Some name.now) × (CERTIFICATE_LIMIT.bytes < length (concat pieces.now))) }
{
    let Some(name) = out else {
        return None;
    };
    if are_within(pieces, CERTIFICATE.bytes) {
        None
    } else {
        Some(name)
    }
}

/// The files of what was found: the certificate, and the filled text, which comes into its place
/// before it, as far as they are asked for.
fn found_puts<'a>(
    alloc: Global,
    template: &Template,
    last: Last,
    asked: &Search<'a>,
) -> Result<Vec<Put>, AllocError>
    requires { length last.values ≡ length template.now.holes }
    ensures { IfOk result (λ puts. map put_text puts.items ≡ found_files (search_seen asked.now).filled (search_seen asked.now).out (filled_text template.now last.values) (concat last.pieces)) }
{
    let Last { values, pieces } = last;
    let bytes = fill(alloc, template, values.as_slice())?;
    let mut puts = Vec::new(alloc);
    let filled = Content::Bytes(bytes);
    push_given(alloc, &mut puts, asked.out, Content::Pieces(pieces))?;
    push_given(alloc, &mut puts, asked.filled, filled)?;
    Ok(puts)
}

/// Adds a file of this content, where a name is given.
fn push_given(
    alloc: Global,
    puts: &mut Vec<Put>,
    name: Option<&str>,
    content: Content,
) -> Result<(), AllocError>
    ensures { OnOk result (map put_text puts.new.items ≡ map put_text puts.old.items ++ with_given (option_map (λ w. w.now) name.entry) (content_bytes content) []) }
{
    let Some(name) = name else {
        return Ok(());
    };
    let put = put_of(alloc, name, content)?;
    puts.push(put)?;
    Ok(())
}
