//! The terms of two forms, merged by rising unknown.
#![tactic(auto)]

ghost use Rattle.std.specs.Prelude.{◌≡◌, [], IfNone, IfSome};
ghost use Rattle.ta_walk.specs.NextTerms.{AreNextTerms};

/// An unknown and its coefficient.
pub(crate) type Term = (u32, i128);

/// The least unknown of two lists of terms, its coefficient in each of them (0 in a list that does
/// not have it), and the terms of each list that follow; `None` exactly where both are empty.
pub(crate) fn next_terms<'a>(
    left: &'a [Term],
    right: &'a [Term],
) -> Option<(u32, i128, i128, &'a [Term], &'a [Term])>
    ensures none { IfNone result ((left.now ≡ []) × (right.now ≡ [])) }
    ensures some { IfSome result (λ s. AreNextTerms left.now right.now s.0 s.1 s.2 s.3.now s.4.now) }
{
    let Some((first, left_rest)) = left.split_first() else {
        return match right.split_first() {
            None => None,
            Some((second, right_rest)) => Some((second.0, 0, second.1, left, right_rest)),
        };
    };
    match right.split_first() {
        None => Some((first.0, first.1, 0, left_rest, right)),
        Some((second, right_rest)) => {
            if first.0 < second.0 {
                Some((first.0, first.1, 0, left_rest, right))
            } else if second.0 < first.0 {
                Some((second.0, 0, second.1, left, right_rest))
            } else {
                Some((first.0, first.1, second.1, left_rest, right_rest))
            }
        }
    }
}
