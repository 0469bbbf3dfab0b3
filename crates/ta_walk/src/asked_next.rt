//! The question that is asked next.
#![tactic(auto)]

ghost use Rattle.std.specs.Prelude.{◌≡◌, ◌≤◌, ◌^◌, ◌&&◌, length, map, Option, option_copied};
ghost use Rattle.std.specs.List.{find, list_all, list_any};
ghost use Rattle.std.specs.Option.{option_map, option_or};
ghost use Rattle.ta_automaton.specs.declared.automaton.Automaton.{Automaton};
ghost use Rattle.ta_automaton.specs.declared.pattern.Pattern.{Pattern};
ghost use Rattle.ta_moments.specs.Refutes.{Asking, Node};
ghost use Rattle.ta_moments.specs.Questions.{GuardAtEnd as KnownGuard, RuleAtEnd as KnownRule, counts_natural, counts_positive, fails_at_end, guard_to_ask, is_guard_open, is_rule_open, known_value, next_question, parts_at, question_among, rule_to_ask, would_fire};
ghost use Rattle.ta_moment_tree.specs.Forms.{all_forms, vector_of};
ghost use Rattle.ta_walk.specs.Values.{values_of};
ghost use Rattle.ta_moment_tree.specs.Parts.{guard_of, parts_of, rule_of};

use crate::known::{counts_natural, counts_negative, counts_positive, of_rule};
use crate::moment_vertex::Vertex;
use crate::orders::order_to_ask;
use ta_linear::Form;
use ta_moment_tree::{GuardAtEnd, NodeParts, RuleAtEnd};
use ta_moments::{Fact, Question, is_open};

/// Whether some rule that needs a guard fires before the end.
fn is_needed(vertex: Option<&Vertex>, end: &[Form], needing: &[u32]) -> bool
    ensures { result ≡ list_any (λ r. counts_positive (known_value (values_of (option_copied vertex.entry)) (vector_of end.now r))) needing.now }
{
    for rule in needing {
        if counts_positive(of_rule(end, *rule), vertex) {
            return true;
        }
    }
    false
}

/// Whether a guard isn't asked, and some rule that needs it fires before the end.
fn is_guard_open(facts: &[Fact], vertex: Option<&Vertex>, end: &[Form], guard: &GuardAtEnd) -> bool
    ensures { result ≡ is_guard_open facts.now (values_of (option_copied vertex.entry)) (vector_of end.now) (guard_of guard.now) }
{
    is_open(facts, Question::OfGuard(guard.number))
        && is_needed(vertex, end, guard.needing.as_slice())
}

/// Whether a guard's row is negative at the end.
fn fails_at_end(guard: &GuardAtEnd, vertex: Option<&Vertex>) -> bool
    ensures { result ≡ fails_at_end (values_of (option_copied vertex.entry)) (guard_of guard.now) }
{
    counts_negative(&guard.row, vertex)
}

/// The first open guard whose row is negative at the end.
fn first_failing(
    facts: &[Fact],
    vertex: Option<&Vertex>,
    end: &[Form],
    guards: &[GuardAtEnd],
) -> Option<u32>
    ensures { result ≡ option_map (λ (guard : KnownGuard). guard.number) (find (λ guard. is_guard_open facts.now (values_of (option_copied vertex.entry)) (vector_of end.now) guard && fails_at_end (values_of (option_copied vertex.entry)) guard) (map guard_of guards.now)) }
{
    for guard in guards {
        if is_guard_open(facts, vertex, end, guard) && fails_at_end(guard, vertex) {
            return Some(guard.number);
        }
    }
    None
}

/// The first open guard.
fn first_open(
    facts: &[Fact],
    vertex: Option<&Vertex>,
    end: &[Form],
    guards: &[GuardAtEnd],
) -> Option<u32>
    ensures { result ≡ option_map (λ (guard : KnownGuard). guard.number) (find (is_guard_open facts.now (values_of (option_copied vertex.entry)) (vector_of end.now)) (map guard_of guards.now)) }
{
    for guard in guards {
        if is_guard_open(facts, vertex, end, guard) {
            return Some(guard.number);
        }
    }
    None
}

/// The guard to ask of.
fn guard_to_ask(
    facts: &[Fact],
    vertex: Option<&Vertex>,
    end: &[Form],
    guards: &[GuardAtEnd],
) -> Option<u32>
    ensures { result ≡ option_map (λ (guard : KnownGuard). guard.number) (guard_to_ask facts.now (values_of (option_copied vertex.entry)) (vector_of end.now) (map guard_of guards.now)) }
{
    match first_failing(facts, vertex, end, guards) {
        Some(guard) => Some(guard),
        None => first_open(facts, vertex, end, guards),
    }
}

/// Whether each of some rows counts as at least 0.
fn all_natural(rows: &[Form], vertex: Option<&Vertex>) -> bool
    ensures { result ≡ list_all (λ f. counts_natural (known_value (values_of (option_copied vertex.entry)) f)) (all_forms rows.now) }
{
    for row in rows {
        if !counts_natural(row, vertex) {
            return false;
        }
    }
    true
}

/// Whether a rule fires at the end without the silent places.
fn would_fire(rule: &RuleAtEnd, vertex: Option<&Vertex>) -> bool
    ensures { result ≡ would_fire (values_of (option_copied vertex.entry)) (rule_of rule.now) }
{
    counts_positive(Some(&rule.source), vertex) && all_natural(rule.rows.as_slice(), vertex)
}

/// Whether it isn't asked what keeps a rule from firing, and it would fire.
fn is_rule_open(facts: &[Fact], vertex: Option<&Vertex>, rule: &RuleAtEnd) -> bool
    ensures { result ≡ is_rule_open facts.now (values_of (option_copied vertex.entry)) (rule_of rule.now) }
{
    is_open(facts, Question::OfStuck(rule.number)) && would_fire(rule, vertex)
}

/// The rule to ask of.
fn rule_to_ask(facts: &[Fact], vertex: Option<&Vertex>, rules: &[RuleAtEnd]) -> Option<u32>
    ensures { result ≡ option_map (λ (rule : KnownRule). rule.number) (rule_to_ask facts.now (values_of (option_copied vertex.entry)) (map rule_of rules.now)) }
{
    for rule in rules {
        if is_rule_open(facts, vertex, rule) {
            return Some(rule.number);
        }
    }
    None
}

/// The question that is asked next with these facts and parts.
fn question_among(facts: &[Fact], parts: &NodeParts, vertex: Option<&Vertex>) -> Option<Question>
    requires { length parts.now.moments.now ≤ 2 ^ 32 }
    ensures { result ≡ question_among facts.now (values_of (option_copied vertex.entry)) (parts_of parts.now) }
{
    let guards = parts.guards.as_slice();
    if let Some(guard) = guard_to_ask(facts, vertex, parts.end, guards) {
        return Some(Question::OfGuard(guard));
    }
    if let Some(order) = order_to_ask(parts.moving, facts, parts.moments, vertex) {
        return Some(order);
    }
    match rule_to_ask(facts, vertex, parts.rules.as_slice()) {
        None => None,
        Some(rule) => Some(Question::OfStuck(rule)),
    }
}

/// The question that is asked next at a node with these facts, the newest first, and these parts, at a
/// vertex of its system; without a vertex no value is known.
pub fn next_question(facts: &[Fact], parts: &NodeParts, vertex: Option<&Vertex>) -> Option<Question>
    requires { length parts.now.moments.now ≤ 2 ^ 32 }
    ensures among { result ≡ question_among facts.now (values_of (option_copied vertex.entry)) (parts_of parts.now) }
    ensures node { (a : Automaton) (p : Pattern) (asking : Asking) (node : Node) → facts.now ≡ node.past → parts_of parts.now ≡ parts_at a p asking node → result ≡ next_question a p asking node (values_of (option_copied vertex.entry)) }
{
    question_among(facts, parts, vertex)
}
