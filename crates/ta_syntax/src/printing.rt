//! Printing trees.
#![tactic(auto)]

ghost use Rattle.std.specs.Prelude.{◌≡◌, ◌∷◌, ◌++◌, [], List, IfOk};
ghost use Rattle.std.specs.String.{string_bytes};
ghost use Rattle.ta_syntax.specs.Grammar.{relation_kind, sum_kinds, term_kinds, factor_kinds, listed, led, ended, each, location_kinds, comparison_kinds, update_kinds, rule_kinds, event_kinds, pattern_kinds, file_kinds, name_kinds};
ghost use Rattle.ta_syntax.specs.PlainSums.{plain_sum, plain_term, plain_factor};
ghost use Rattle.ta_syntax.specs.PlainTrees.{plain_location, plain_comparison, plain_update, plain_rule, plain_event, plain_pattern, plain_tree};
ghost use Rattle.ta_syntax.specs.Printed.{separator, printed};
ghost use Rattle.ta_syntax.specs.Inside.Printed.{Prints, sign_before, head_kinds};
ghost use Rattle.ta_syntax.specs.declared.tokens.Kind.{Kind};
ghost use Rattle.ta_syntax.specs.declared.tokens.Mark.{Mark};

use crate::marks::mark_text;
use crate::names::{Digits, Spelled};
use crate::sums::{Sign, TreeFactor, TreeSum, TreeTerm};
use crate::tokens::{Mark, Relation};
use crate::tree::{
    Tree, TreeComparison, TreeEvent, TreeLocation, TreePattern, TreeRule, TreeUpdate,
};
use std::alloc::{AllocError, Global};
use ta_base::Text;

/// What a list of a tree has.
trait Printed {
    ghost spelled: { Self → List Kind };

    /// Prints an item behind what is there.
    fn print(&self, text: &mut String) -> Result<(), AllocError>
        ensures { IfOk result (λ _. Prints (string_bytes text.old) (string_bytes text.new) (spelled self.now)) };
}

/// What stands behind a mark.
fn behind(mark: Mark) -> &'static str
    ensures { result.now ≡ separator (Kind.Fixed mark) ∷ [] }
{
    match mark {
        Mark::Semicolon | Mark::OpenBrace | Mark::CloseBrace => "\n",
        _ => " ",
    }
}

/// Prints a mark.
fn put_mark(text: &mut String, mark: Mark) -> Result<(), AllocError>
    ensures { IfOk result (λ _. Prints (string_bytes text.old) (string_bytes text.new) (Kind.Fixed mark ∷ [])) }
{
    text.push_str(mark_text(mark))?;
    text.push_str(behind(mark))
}

/// Prints a name.
fn put_name(text: &mut String, name: &Spelled) -> Result<(), AllocError>
    ensures { IfOk result (λ _. Prints (string_bytes text.old) (string_bytes text.new) (Kind.Name name.now.name ∷ [])) }
{
    text.push_str(name.name.as_str())?;
    text.push_str(" ")
}

/// Prints a number.
fn put_number(text: &mut String, number: &Digits) -> Result<(), AllocError>
    ensures { IfOk result (λ _. Prints (string_bytes text.old) (string_bytes text.new) (Kind.Number number.now.text ∷ [])) }
{
    text.push_str(number.text.as_str())?;
    text.push_str(" ")
}

/// Prints the sign before the term at a place of a sum.
fn put_sign(text: &mut String, place: usize, sign: Sign) -> Result<(), AllocError>
    ensures { IfOk result (λ _. Prints (string_bytes text.old) (string_bytes text.new) (sign_before place sign)) }
{
    match sign {
        Sign::Plus if place == 0 => Ok(()),
        Sign::Plus => put_mark(text, Mark::Plus),
        Sign::Minus => put_mark(text, Mark::Minus),
    }
}

/// Prints how two sums are compared.
fn put_relation(text: &mut String, relation: Relation) -> Result<(), AllocError>
    ensures { IfOk result (λ _. Prints (string_bytes text.old) (string_bytes text.new) (relation_kind relation ∷ [])) }
{
    match relation {
        Relation::Less => put_mark(text, Mark::Less),
        Relation::AtMost => put_mark(text, Mark::AtMost),
        Relation::Equal => put_mark(text, Mark::Equal),
        Relation::AtLeast => put_mark(text, Mark::AtLeast),
        Relation::More => put_mark(text, Mark::More),
    }
}

/// Prints a factor.
#[cycle(printing)]
fn print_factor(factor: &TreeFactor, text: &mut String) -> Result<(), AllocError>
    ensures { IfOk result (λ _. Prints (string_bytes text.old) (string_bytes text.new) (factor_kinds (plain_factor factor.now))) }
{
    match factor {
        TreeFactor::Named(name) => put_name(text, name),
        TreeFactor::Nested(sum) => {
            put_mark(text, Mark::Open)?;
            print_sum(sum, text)?;
            put_mark(text, Mark::Close)
        }
    }
}

/// Prints a term.
#[cycle(printing)]
fn print_term(term: &TreeTerm, text: &mut String) -> Result<(), AllocError>
    ensures { IfOk result (λ _. Prints (string_bytes text.old) (string_bytes text.new) (term_kinds (plain_term term.now))) }
{
    match (&term.factor, &term.body) {
        (Some(number), Some(body)) => {
            put_number(text, number)?;
            put_mark(text, Mark::Star)?;
            print_factor(body, text)
        }
        (Some(number), None) => put_number(text, number),
        (None, Some(body)) => print_factor(body, text),
        (None, None) => Ok(()),
    }
}

/// Prints a sum.
#[cycle(printing)]
fn print_sum(sum: &TreeSum, text: &mut String) -> Result<(), AllocError>
    ensures { IfOk result (λ _. Prints (string_bytes text.old) (string_bytes text.new) (sum_kinds (plain_sum sum.now))) }
{
    'terms: for (place, term) in sum.terms.iter().enumerate() {
        put_sign(text, place, term.0)?;
        print_term(&term.1, text)?;
    }
    Ok(())
}

/// Prints items with commas between.
fn print_listed<T: Printed>(items: &[T], text: &mut String) -> Result<(), AllocError>
    ensures { IfOk result (λ _. Prints (string_bytes text.old) (string_bytes text.new) (listed Kind.Fixed T.spelled items.now)) }
{
    let Some((first, rest)) = items.split_first() else {
        return Ok(());
    };
    first.print(text)?;
    'items: for item in rest {
        put_mark(text, Mark::Comma)?;
        item.print(text)?;
    }
    Ok(())
}

/// Prints a keyword and items with commas between, where there are items.
fn print_led<T: Printed>(mark: Mark, items: &[T], text: &mut String) -> Result<(), AllocError>
    ensures { IfOk result (λ _. Prints (string_bytes text.old) (string_bytes text.new) (led Kind.Fixed mark T.spelled items.now)) }
{
    if items.is_empty() {
        return Ok(());
    }
    put_mark(text, mark)?;
    print_listed(items, text)
}

/// Prints a keyword, items with commas between, and a semicolon, where there are items.
fn print_ended<T: Printed>(mark: Mark, items: &[T], text: &mut String) -> Result<(), AllocError>
    ensures { IfOk result (λ _. Prints (string_bytes text.old) (string_bytes text.new) (ended Kind.Fixed mark T.spelled items.now)) }
{
    if items.is_empty() {
        return Ok(());
    }
    put_mark(text, mark)?;
    print_listed(items, text)?;
    put_mark(text, Mark::Semicolon)
}

/// Prints items one after another.
fn print_each<T: Printed>(items: &[T], text: &mut String) -> Result<(), AllocError>
    ensures { IfOk result (λ _. Prints (string_bytes text.old) (string_bytes text.new) (each T.spelled items.now)) }
{
    'items: for item in items {
        item.print(text)?;
    }
    Ok(())
}

impl Printed for Spelled {
    ghost spelled = { λ n. name_kinds n.name };

    fn print(&self, text: &mut String) -> Result<(), AllocError> {
        put_name(text, self)
    }
}

impl Printed for TreeLocation {
    ghost spelled = { λ l. location_kinds (plain_location l) };

    fn print(&self, text: &mut String) -> Result<(), AllocError> {
        put_name(text, &self.name)?;
        if self.initial {
            return put_mark(text, Mark::Initial);
        }
        Ok(())
    }
}

impl Printed for TreeComparison {
    ghost spelled = { λ c. comparison_kinds (plain_comparison c) };

    fn print(&self, text: &mut String) -> Result<(), AllocError> {
        print_sum(&self.left, text)?;
        put_relation(text, self.relation)?;
        print_sum(&self.right, text)
    }
}

impl Printed for TreeUpdate {
    ghost spelled = { λ u. update_kinds (plain_update u) };

    fn print(&self, text: &mut String) -> Result<(), AllocError> {
        put_name(text, &self.name)?;
        put_mark(text, Mark::PlusEquals)?;
        put_number(text, &self.amount)
    }
}

impl Printed for TreeRule {
    ghost spelled = { λ r. rule_kinds (plain_rule r) };

    fn print(&self, text: &mut String) -> Result<(), AllocError> {
        put_mark(text, Mark::Rule)?;
        put_name(text, &self.name)?;
        put_mark(text, Mark::Colon)?;
        put_name(text, &self.from)?;
        put_mark(text, Mark::Arrow)?;
        put_name(text, &self.to)?;
        print_led(Mark::When, self.guards.as_slice(), text)?;
        print_led(Mark::Do, self.updates.as_slice(), text)?;
        put_mark(text, Mark::Semicolon)
    }
}

impl Printed for TreeEvent {
    ghost spelled = { λ e. event_kinds (plain_event e) };

    fn print(&self, text: &mut String) -> Result<(), AllocError> {
        put_mark(text, Mark::Event)?;
        put_name(text, &self.name)?;
        print_led(Mark::After, self.after.as_slice(), text)?;
        put_mark(text, Mark::Colon)?;
        print_listed(self.condition.as_slice(), text)?;
        put_mark(text, Mark::Semicolon)
    }
}

impl Printed for TreePattern {
    ghost spelled = { λ p. pattern_kinds (plain_pattern p) };

    fn print(&self, text: &mut String) -> Result<(), AllocError> {
        put_mark(text, Mark::Pattern)?;
        put_name(text, &self.name)?;
        put_mark(text, Mark::OpenBrace)?;
        print_ended(Mark::Start, self.start.as_slice(), text)?;
        print_ended(Mark::Empty, self.empty.as_slice(), text)?;
        print_each(self.events.as_slice(), text)?;
        put_mark(text, Mark::CloseBrace)
    }
}

/// Prints a keyword, items with commas between, and a semicolon.
fn print_declared<T: Printed>(mark: Mark, items: &[T], text: &mut String) -> Result<(), AllocError>
    ensures { IfOk result (λ _. Prints (string_bytes text.old) (string_bytes text.new) (Kind.Fixed mark ∷ (listed Kind.Fixed T.spelled items.now ++ Kind.Fixed Mark.Semicolon ∷ []))) }
{
    put_mark(text, mark)?;
    print_listed(items, text)?;
    put_mark(text, Mark::Semicolon)
}

/// Prints the name and the declarations of a file.
fn print_head(tree: &Tree, text: &mut String) -> Result<(), AllocError>
    ensures { IfOk result (λ _. Prints (string_bytes text.old) (string_bytes text.new) (head_kinds (plain_tree tree.now))) }
{
    put_mark(text, Mark::Automaton)?;
    put_name(text, &tree.name)?;
    put_mark(text, Mark::Semicolon)?;
    print_declared(Mark::Parameters, tree.parameters.as_slice(), text)?;
    print_declared(Mark::Shared, tree.shared.as_slice(), text)?;
    print_declared(Mark::Locations, tree.locations.as_slice(), text)
}

/// The text of a tree: its tokens with a space between two, a line feed in place of the space after `;`, `{` and `}`, and a line feed at the end. Offsets say nothing here.
pub fn print_tree(alloc: Global, tree: &Tree) -> Result<Text, AllocError>
    ensures { IfOk result (λ text. text ≡ printed (file_kinds (plain_tree tree.now))) }
{
    let mut text = String::new(alloc);
    print_head(tree, &mut text)?;
    put_mark(&mut text, Mark::Processes)?;
    print_sum(&tree.processes, &mut text)?;
    put_mark(&mut text, Mark::Semicolon)?;
    print_declared(Mark::Resilience, tree.resilience.as_slice(), &mut text)?;
    print_each(tree.rules.as_slice(), &mut text)?;
    print_each(tree.patterns.as_slice(), &mut text)?;
    Ok(Text::from_string(text))
}
