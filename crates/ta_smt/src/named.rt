//! Words of a file by the name of their pattern, and the text of their systems.
#![tactic(auto)]

ghost use Rattle.std.specs.Prelude.{ℕ, ◌≡◌, ◌≤◌, ◌^◌, ◌↔◌, length, IfOk, IfErr, IsTrue, MatchOption, nat_lt};
ghost use Rattle.ta_automaton.specs.Narrow.{IsNarrow};
ghost use Rattle.ta_smt.specs.Admit.{asked};
ghost use Rattle.ta_smt.specs.Named.{IsLegalWord, IsNamed, IsWholeWordOf, IsWordOf, IsWordText, WholeFaultOf, WordFaultOf, spelling};

use crate::export::smt_text;
use crate::fault::WordFault;
use crate::spelling::word_of;
use std::alloc::{AllocError, Global};
use ta_automaton::{File, Pattern};
use ta_base::Text;
use ta_encode::encode;
use ta_words::{Element, NarrowTask, Word, is_complete};

/// A word of a pattern and a start set, in which bit j stands for fall guard j.
#[derive(Drop)]
pub struct NamedWord {
    pub pattern: u32,
    pub start_mask: u8,
    pub word: Word,
}

/// The word of a narrow file by a pattern's name, a start set and elements. It takes no memory.
pub fn named_word(
    file: &File,
    name: &str,
    start_mask: u8,
    elements: &[Element],
) -> Result<NamedWord, WordFault>
    requires { IsNarrow file.now.automaton }
    ensures word { IfOk result (λ w. IsWordOf file.now (spelling name.now start_mask elements.now) (asked w.pattern w.start_mask w.word)) }
    ensures fault { IfErr result (WordFaultOf file.now (spelling name.now start_mask elements.now)) }
{
    let Some(pattern) = pattern_named(file.patterns.as_slice(), name) else {
        return Err(WordFault::Pattern);
    };
    if !begins(file, start_mask) {
        return Err(WordFault::Start);
    }
    match word_of(NarrowTask::of(file, pattern), start_mask, elements) {
        Ok(word) => Ok(NamedWord {
            pattern,
            start_mask,
            word,
        }),
        Err(number) => Err(WordFault::Element(number)),
    }
}

/// The same, where the word has each event of the pattern.
pub fn whole_word(
    file: &File,
    name: &str,
    start_mask: u8,
    elements: &[Element],
) -> Result<NamedWord, WordFault>
    requires { IsNarrow file.now.automaton }
    ensures word { IfOk result (λ w. IsWholeWordOf file.now (spelling name.now start_mask elements.now) (asked w.pattern w.start_mask w.word)) }
    ensures fault { IfErr result (WholeFaultOf file.now (spelling name.now start_mask elements.now)) }
{
    match named_word(file, name, start_mask, elements) {
        Ok(named) if is_complete(NarrowTask::of(file, named.pattern), named.word.elements()) => Ok(
            named,
        ),
        Ok(_) => Err(WordFault::Incomplete),
        Err(fault) => Err(fault),
    }
}

/// Whether a start set names fall guards of a narrow file alone.
fn begins(file: &File, start_mask: u8) -> bool
    requires { IsNarrow file.now.automaton }
    ensures { result ≡ nat_lt start_mask (2 ^ length file.now.automaton.fall) }
{
    (start_mask as usize) < 1 << file.automaton.fall.as_slice().len()
}

/// The number of the pattern with a name, if there is one.
pub fn pattern_named(patterns: &[Pattern], name: &str) -> Option<u32>
    requires { length patterns.now ≤ 2 ^ 32 }
    ensures { MatchOption result ((number : ℕ) (pattern : Pattern) → ¬ IsNamed patterns.now name.now number pattern) (λ number. (pattern : Pattern) × IsNamed patterns.now name.now number pattern) }
{
    for (i, pattern) in patterns.iter().enumerate() {
        if is_named(pattern, name) {
            return Some(i as u32);
        }
    }
    None
}

/// Whether a pattern has a name.
fn is_named(pattern: &Pattern, name: &str) -> bool
    ensures { IsTrue result ↔ (pattern.now.name ≡ name.now) }
{
    pattern.name.as_str() == name
}

/// The text of a word's system, without bounds, as a script for other solvers.
pub fn word_text(alloc: Global, file: &File, named: &NamedWord) -> Result<Text, AllocError>
    requires legal { IsLegalWord file.now (asked named.now.pattern named.now.start_mask named.now.word) }
    requires narrow { IsNarrow file.now.automaton }
    ensures { IfOk result (IsWordText file.now (asked named.now.pattern named.now.start_mask named.now.word)) }
{
    let task = NarrowTask::of(file, named.pattern);
    let encoded = encode(alloc, task, named.start_mask, &named.word, &[])?;
    let text = smt_text(alloc, &encoded.system)?;
    Ok(text)
}
