//! The system of a schema, written on from that of another schema of the pattern.
//!
//! The unknowns and rows of an element stand behind those of the elements before it, so two schemas
//! share what their common prefix has written. A mark after each element says how many unknowns and
//! rows there were: the old system is cut to the mark of the last element that both share, and the
//! rest is written behind it. Rows of the end and of bounds stand behind all marks and are written
//! anew. How many rows stayed is handed on, for the dictionaries (`Branch` of ta_simplex).
//!
//! Cost: the elements that are not shared; along a branch of the tree, one.
#![tactic(auto)]

ghost use Rattle.std.specs.Prelude.{ℕ, ◌+◌, ◌-◌, ◌^◌, ◌<◌, ◌≤◌, ◌≡◌, ◌↔◌, [], List, IfOk, IsTrue, OnOk, length, reverse, take};
ghost use Rattle.ta_words.specs.Words.{LegalWord};
ghost use Rattle.ta_encode.specs.Code.{SystemOf};
ghost use Rattle.ta_encode.specs.Ends.{EndedSystem};
ghost use Rattle.ta_encode.specs.Inside.Draft.{IsDraft};
ghost use Rattle.ta_encode.specs.Lines.{BoundsWithin};
ghost use Rattle.ta_encode.specs.Inside.Lines.{IsBehind};
ghost use Rattle.ta_encode.specs.Unknowns.{meanings};
ghost use Rattle.ta_encode.specs.Marks.{AreMarks, IsEncoding, IsPart, SameRows, mark_at};
ghost use Rattle.ta_linear.specs.declared.row.Row.{Row};
ghost use Rattle.ta_automaton.specs.declared.automaton.Automaton.{Automaton};
ghost use Rattle.ta_automaton.specs.declared.pattern.Pattern.{Pattern};
ghost use Rattle.ta_words.specs.declared.element.Element.{Element};

use crate::draft::Draft;
use crate::encoded::Encoded;
use crate::ending::WordEnd;
use crate::meaning::{Bound, Meaning};
use crate::origin::Origin;
use std::alloc::{AllocError, Global};
use ta_base::List;
use ta_base::limits::LONGEST_WORD;
use ta_linear::{Row, System};
use ta_words::{Element, NarrowTask};

/// How many unknowns and rows there are after some of a word's elements.
#[derive(Clone, Copy)]
pub struct Mark {
    pub(crate) unknowns: usize,
    pub(crate) rows: usize,
}

/// The system of a word, with how many of its unknowns and rows there are after each of its
/// elements, so that the system of another word begins where the two begin to differ.
#[derive(Drop)]
pub struct Encoding {
    pub(crate) start_mask: u8,
    pub(crate) elements: Vec<Element>,
    pub(crate) marks: Vec<Mark>,
    pub(crate) meanings: Vec<Meaning>,
    pub system: System,
}

/// How many of the elements with which a list begins are those with which another does.
fn shared_length(left: &[Element], right: &[Element]) -> usize
    ensures left { result ≤ length left.now }
    ensures right { result ≤ length right.now }
    ensures same { take result left.now ≡ take result right.now }
{
    let least = left.len().min(right.len());
    for number in 0..least {
        if !is_same(left[number], right[number]) {
            return number;
        }
    }
    least
}

/// Whether two elements are the same.
fn is_same(left: Element, right: Element) -> bool
    ensures { IsTrue result ↔ left ≡ right }
{
    left == right
}

/// How many unknowns and rows a draft has.
fn mark_of(draft: &Draft) -> Mark
    ensures unknowns { result.unknowns ≡ length draft.now.meanings.items }
    ensures rows { result.rows ≡ length draft.now.rows.items }
{
    Mark {
        unknowns: draft.meanings.len(),
        rows: draft.rows.len(),
    }
}

/// The unknowns and rows of elements from a number on, and a mark after each.
fn push_from(
    origin: &Origin,
    elements: &[Element],
    from: usize,
    marks: &mut Vec<Mark>,
    draft: &mut Draft,
) -> Result<(), AllocError>
    requires few { length elements.now ≤ LONGEST_WORD }
    requires from { from ≤ length elements.now }
    requires marked { length marks.old.items ≡ from + 1 }
    requires marks { AreMarks origin.now.task.automaton.now origin.now.task.pattern.now origin.now.start_mask elements.now draft.old.meanings.items draft.old.rows.items marks.old.items }
    requires drafted { IsDraft origin.now (reverse (take from elements.now)) draft.old }
    ensures marks { OnOk result (AreMarks origin.now.task.automaton.now origin.now.task.pattern.now origin.now.start_mask elements.now draft.new.meanings.items draft.new.rows.items marks.new.items) }
    ensures drafted { OnOk result (IsDraft origin.now (reverse elements.now) draft.new) }
    ensures rows { OnOk result (IsBehind draft.old.rows.items draft.new.rows.items) }
{
    for number in from..elements.len() {
        draft.push_element(origin, &elements[..number], elements[number])?;
        marks.push(mark_of(draft))?;
    }
    Ok(())
}

/// What is written of a word already.
#[derive(Drop)]
pub(crate) struct Part<'a> {
    marks: Vec<Mark>,
    draft: Draft<'a>,
    /// How many of its elements are written.
    from: usize,
    /// How many rows are those of the word before.
    same: usize,
}

/// An encoding, and how many of its rows, from the first on, are those of the one before.
#[derive(Drop)]
pub struct Grown {
    pub encoding: Encoding,
    pub same: usize,
}

/// What is written at the start.
fn begin<'a>(alloc: Global, origin: &Origin<'a>) -> Result<Part<'a>, AllocError>
    ensures { IfOk result (λ part. (elements : List Element) (before : List Row) → IsPart origin.now elements before part) }
{
    let draft = Draft::start(alloc, origin)?;
    let mut marks = Vec::new(alloc);
    marks.push(mark_of(&draft))?;
    Ok(Part {
        marks,
        draft,
        from: 0,
        same: 0,
    })
}

/// What stays of the marks, unknowns and rows after so many elements.
fn cut(
    shared: usize,
    marks: Vec<Mark>,
    meanings: Vec<Meaning>,
    rows: Vec<Row>,
) -> (Vec<Mark>, Vec<Meaning>, Vec<Row>)
    requires { shared < length marks.items }
    ensures marks { result.0.items ≡ take (shared + 1) marks.items }
    ensures meanings { result.1.items ≡ take (mark_at marks.items shared).unknowns meanings.items }
    ensures rows { result.2.items ≡ take (mark_at marks.items shared).rows rows.items }
{
    let mut kept_marks = marks;
    let mut kept_meanings = meanings;
    let mut kept_rows = rows;
    let last = kept_marks[shared];
    kept_marks.truncate(shared + 1);
    kept_meanings.truncate(last.unknowns);
    kept_rows.truncate(last.rows);
    (kept_marks, kept_meanings, kept_rows)
}

/// What is written already of a word: what it shares with the word before, or the start.
fn part_of<'a>(
    alloc: Global,
    origin: &Origin<'a>,
    elements: &[Element],
    encoding: Encoding,
) -> Result<Part<'a>, AllocError>
    requires few { length elements.now ≤ LONGEST_WORD }
    requires encoding { IsEncoding origin.now.task.automaton.now origin.now.task.pattern.now encoding }
    ensures { IfOk result (IsPart origin.now elements.now encoding.system.rows) }
{
    let Encoding {
        start_mask: was,
        elements: drafted,
        marks,
        meanings,
        system,
    } = encoding;
    let shared = shared_length(drafted.as_slice(), elements);
    if was == origin.start_mask && shared < marks.len() {
        let System { unknowns: _, rows } = system;
        let (marks, meanings, rows) = cut(shared, marks, meanings, rows.into_vec());
        let same = rows.len();
        let draft = Draft {
            alloc,
            automaton: origin.task.automaton,
            meanings,
            rows,
        };
        return Ok(Part {
            marks,
            draft,
            from: shared,
            same,
        });
    }
    begin(alloc, origin)
}

/// The rest of a word, the rows of its end, and its bounds.
fn finish(
    origin: &Origin,
    elements: &[Element],
    end: Option<WordEnd>,
    bounds: &[Bound],
    part: Part,
) -> Result<Grown, AllocError>
    requires few { length elements.now ≤ LONGEST_WORD }
    requires bounds { BoundsWithin (length (meanings origin.now.task.automaton.now origin.now.task.pattern.now origin.now.start_mask (reverse elements.now))) bounds.now }
    requires part { IsPart origin.now elements.now part.draft.rows.items part }
    ensures encoding { IfOk result (λ grown. IsEncoding origin.now.task.automaton.now origin.now.task.pattern.now grown.encoding) }
    ensures system { IfOk result (λ grown. EndedSystem origin.now.task.automaton.now origin.now.task.pattern.now origin.now.start_mask (reverse elements.now) end bounds.now grown.encoding.system) }
    ensures same { IfOk result (λ grown. (grown.same ≡ part.entry.same) × IsBehind part.entry.draft.rows.items grown.encoding.system.rows) }
{
    let Part {
        mut marks,
        mut draft,
        from,
        same,
    } = part;
    let alloc = draft.alloc;
    push_from(origin, elements, from, &mut marks, &mut draft)?;
    draft.push_end(end)?;
    let Encoded { system, meanings } = draft.encoded(bounds)?;
    let encoding = Encoding {
        start_mask: origin.start_mask,
        elements: Vec::from_slice(alloc, elements)?,
        marks,
        meanings: meanings.into_vec(),
        system,
    };
    Ok(Grown { encoding, same })
}

impl Encoding {
    /// The encoding of nothing. It takes no memory.
    pub fn new(alloc: Global) -> Encoding
        ensures { (a : Automaton) (p : Pattern) → IsEncoding a p result }
    {
        Encoding {
            start_mask: 0,
            elements: Vec::new(alloc),
            marks: Vec::new(alloc),
            meanings: Vec::new(alloc),
            system: System {
                unknowns: 0,
                rows: List::from_vec(Vec::new(alloc)),
            },
        }
    }

    /// The system of the word of these elements with bounds, as `encode` gives it, from that of another word of the
    /// pattern: what both begin with isn't written anew. Only want of memory is an error.
    pub fn grown(
        self,
        alloc: Global,
        task: NarrowTask<'_>,
        start_mask: u8,
        elements: &[Element],
        bounds: &[Bound],
    ) -> Result<Grown, AllocError>
        requires legal { LegalWord task.automaton.now task.pattern.now start_mask (reverse elements.now) }
        requires bounds { BoundsWithin (length (meanings task.automaton.now task.pattern.now start_mask (reverse elements.now))) bounds.now }
        requires encoding { IsEncoding task.automaton.now task.pattern.now self }
        ensures encoding { IfOk result (λ grown. IsEncoding task.entry.automaton.now task.entry.pattern.now grown.encoding) }
        ensures system { IfOk result (λ grown. SystemOf task.entry.automaton.now task.entry.pattern.now start_mask (reverse elements.now) bounds.now grown.encoding.system) }
        ensures same { IfOk result (λ grown. SameRows self.system.rows grown.same grown.encoding.system.rows) }
    {
        self.grown_to(alloc, task, start_mask, elements, None, bounds)
    }

    /// As `grown`, with rows of the word's end, where anything is asked of it, between those of the
    /// word and those of the bounds.
    pub fn grown_to(
        self,
        alloc: Global,
        task: NarrowTask<'_>,
        start_mask: u8,
        elements: &[Element],
        end: Option<WordEnd>,
        bounds: &[Bound],
    ) -> Result<Grown, AllocError>
        requires legal { LegalWord task.automaton.now task.pattern.now start_mask (reverse elements.now) }
        requires bounds { BoundsWithin (length (meanings task.automaton.now task.pattern.now start_mask (reverse elements.now))) bounds.now }
        requires encoding { IsEncoding task.automaton.now task.pattern.now self }
        ensures encoding { IfOk result (λ grown. IsEncoding task.entry.automaton.now task.entry.pattern.now grown.encoding) }
        ensures system { IfOk result (λ grown. EndedSystem task.entry.automaton.now task.entry.pattern.now start_mask (reverse elements.now) end bounds.now grown.encoding.system) }
        ensures same { IfOk result (λ grown. SameRows self.system.rows grown.same grown.encoding.system.rows) }
    {
        let origin = Origin { task, start_mask };
        let part = part_of(alloc, &origin, elements, self)?;
        let grown = finish(&origin, elements, end, bounds, part)?;
        Ok(grown)
    }
}
