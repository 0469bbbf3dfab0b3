//! What is known of the family. The function does nothing: its contract states the law.
#![tactic(auto)]

ghost use Rattle.ta_maker.specs.FamilyLaws.{FamilyIsFlawless};

use ta_syntax::printed_has_tokens;

/// The printed text of each automaton of the family is short and has no error, and the pattern of the
/// file that it means occurs in no run: it asks for one process more than there are.
pub fn family_is_flawless()
    ensures { FamilyIsFlawless }
{
    // the law by which a printed tree is read; the call does nothing
    printed_has_tokens();
}
