//! Words from their elements.
#![tactic(auto)]

ghost use Rattle.std.specs.Prelude.{◌≡◌, reverse, IfOk, IfErr};
ghost use Rattle.ta_words.specs.Words.{LegalWord};
ghost use Rattle.ta_smt.specs.Spelling.{FirstStranger};

use ta_implied::Orders;
use ta_words::{Element, NarrowTask, Word};

/// The word of these elements, or the first, from 0, that is no child of those before it. It takes no
/// memory.
pub fn word_of(task: NarrowTask<'_>, start_mask: u8, elements: &[Element]) -> Result<Word, u32>
    ensures word { IfOk result (λ word. word ≡ elements.now) }
    ensures legal { IfOk result (λ word. LegalWord task.entry.automaton.now task.entry.pattern.now start_mask (reverse word)) }
    ensures stranger { IfErr result (FirstStranger task.entry.automaton.now task.entry.pattern.now start_mask elements.now) }
{
    let mut word = Word::new();
    for element in elements {
        let number = word.elements().len() as u32;
        let orders = Orders::new();
        if !word.push(task, start_mask, &orders, *element) {
            return Err(number);
        }
    }
    Ok(word)
}
