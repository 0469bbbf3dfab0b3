//! The family.
#![tactic(auto)]

ghost use Rattle.std.specs.List.{range_with_len};
ghost use Rattle.std.specs.Prelude.{◌≡◌, ◌≤◌, ◌∷◌, [], IfOk, codes, length, map};
ghost use Rattle.ta_syntax.specs.PlainTrees.{plain_comparison, plain_event, plain_location, plain_name, plain_pattern, plain_rule, plain_tree, plain_update};
ghost use Rattle.ta_maker.specs.Family.{family, lost, numbered, rules_of, sender, waiter};
ghost use Rattle.ta_maker.specs.FamilyParts.{IsHead, rule_with};
ghost use Rattle.ta_syntax.specs.Kinds.{IsNameText};
ghost use Rattle.ta_maker.specs.Made.{IsFamilyNumber, Makes};

use crate::fault::MakerFault;
use crate::names::{numbered, one, spelled};
use crate::sums::{at_least_one, lone, name_term, one_too_many};
use std::alloc::{AllocError, Global};
use ta_base::List;
use ta_syntax::{
    Spelled, Tree, TreeComparison, TreeEvent, TreeLocation, TreePattern, TreeRule, TreeUpdate,
};

/// The automaton of a number from 1 to 7. It has twice as many rules as the number says, and the walk
/// of its one pattern has an inner node for each sequence of distinct guards.
pub fn make_family(alloc: Global, k: u32) -> Result<Tree, MakerFault>
    ensures { Makes k result }
{
    if k < 1 || k > 7 {
        return Err(MakerFault::Range);
    }
    match family(alloc, k) {
        Ok(tree) => Ok(tree),
        Err(AllocError) => Err(MakerFault::Memory),
    }
}

/// The automaton of a number.
fn family(alloc: Global, k: u32) -> Result<Tree, AllocError>
    requires { IsFamilyNumber k }
    ensures { IfOk result (λ tree. plain_tree tree ≡ family k) }
{
    let head = head(alloc, k)?;
    let processes = lone(alloc, name_term(spelled(alloc, "n")?))?;
    let resilience = resilience_of(alloc)?;
    let rules = rules(alloc, k)?;
    let patterns = patterns(alloc)?;
    Ok(Tree {
        name: head.name,
        parameters: head.parameters,
        shared: head.shared,
        locations_at: 0,
        locations: head.locations,
        processes_at: 0,
        processes,
        resilience,
        rules,
        patterns,
    })
}

/// The names that an automaton declares.
#[derive(Drop)]
pub struct FamilyHead {
    pub name: Spelled,
    pub parameters: List<Spelled>,
    pub shared: List<Spelled>,
    pub locations: List<TreeLocation>,
}

/// The names that the automaton of a number declares.
fn head(alloc: Global, k: u32) -> Result<FamilyHead, AllocError>
    requires { IsFamilyNumber k }
    ensures { IfOk result (IsHead k) }
{
    Ok(FamilyHead {
        name: numbered(alloc, "family", k)?,
        parameters: list_of(alloc, spelled(alloc, "n")?)?,
        shared: shared(alloc, k)?,
        locations: locations(alloc)?,
    })
}

/// The resilience condition.
fn resilience_of(alloc: Global) -> Result<List<TreeComparison>, AllocError>
    ensures { IfOk result (λ list. map plain_comparison list ≡ (family 1).resilience) }
{
    let comparison = at_least_one(alloc, spelled(alloc, "n")?)?;
    list_of(alloc, comparison)
}

/// The list of one item.
fn list_of<T: Drop>(alloc: Global, item: T) -> Result<List<T>, AllocError>
    ensures { IfOk result (λ list. list ≡ item ∷ []) }
{
    let mut items = Vec::new(alloc);
    items.push(item)?;
    Ok(List::from_vec(items))
}

/// The shared variables.
fn shared(alloc: Global, k: u32) -> Result<List<Spelled>, AllocError>
    requires { IsFamilyNumber k }
    ensures { IfOk result (λ list. map plain_name list ≡ map (numbered (codes "x")) (range_with_len 1 k)) }
{
    let mut names = Vec::new(alloc);
    for index in 1..k + 1 {
        names.push(numbered(alloc, "x", index)?)?;
    }
    Ok(List::from_vec(names))
}

/// The locations.
fn locations(alloc: Global) -> Result<List<TreeLocation>, AllocError>
    ensures { IfOk result (λ list. map plain_location list ≡ (family 1).locations) }
{
    let first = spelled(alloc, "A")?;
    let second = spelled(alloc, "B")?;
    let mut locations = Vec::new(alloc);
    locations.push(TreeLocation {
        name: first,
        initial: true,
    })?;
    locations.push(TreeLocation {
        name: second,
        initial: false,
    })?;
    Ok(List::from_vec(locations))
}

/// The rules.
fn rules(alloc: Global, k: u32) -> Result<List<TreeRule>, AllocError>
    requires { IsFamilyNumber k }
    ensures { IfOk result (λ list. map plain_rule list ≡ rules_of (range_with_len 1 k)) }
{
    let mut rules = Vec::new(alloc);
    for index in 1..k + 1 {
        rules.push(sender(alloc, index)?)?;
        rules.push(waiter(alloc, index)?)?;
    }
    Ok(List::from_vec(rules))
}

/// The rule that raises a shared variable.
fn sender(alloc: Global, index: u32) -> Result<TreeRule, AllocError>
    requires { IsFamilyNumber index }
    ensures { IfOk result (λ rule. plain_rule rule ≡ sender index) }
{
    let updates = list_of(
        alloc,
        TreeUpdate {
            name: numbered(alloc, "x", index)?,
            amount: one(alloc)?,
        },
    )?;
    let guards = List::from_vec(Vec::new(alloc));
    rule_of(alloc, "s", index, guards, updates)
}

/// The rule that waits for a shared variable.
fn waiter(alloc: Global, index: u32) -> Result<TreeRule, AllocError>
    requires { IsFamilyNumber index }
    ensures { IfOk result (λ rule. plain_rule rule ≡ waiter index) }
{
    let guard = at_least_one(alloc, numbered(alloc, "x", index)?)?;
    let guards = list_of(alloc, guard)?;
    let updates = List::from_vec(Vec::new(alloc));
    rule_of(alloc, "g", index, guards, updates)
}

/// The rule from the first location to the second with a name, guards and updates.
fn rule_of(
    alloc: Global,
    front: &str,
    index: u32,
    guards: List<TreeComparison>,
    updates: List<TreeUpdate>,
) -> Result<TreeRule, AllocError>
    requires name { IsNameText (numbered front.now index) }
    requires guards { length guards ≤ 1 }
    requires updates { length updates ≤ 1 }
    ensures { IfOk result (λ rule. plain_rule rule ≡ rule_with (numbered front.now index) (map plain_comparison guards) (map plain_update updates)) }
{
    let name = numbered(alloc, front, index)?;
    let from = spelled(alloc, "A")?;
    let to = spelled(alloc, "B")?;
    Ok(TreeRule {
        name,
        from,
        to,
        guards,
        updates,
    })
}

/// The patterns.
fn patterns(alloc: Global) -> Result<List<TreePattern>, AllocError>
    ensures { IfOk result (λ list. map plain_pattern list ≡ lost ∷ []) }
{
    let events = events(alloc)?;
    let pattern = TreePattern {
        name: spelled(alloc, "lost")?,
        start: List::from_vec(Vec::new(alloc)),
        empty: List::from_vec(Vec::new(alloc)),
        events,
    };
    list_of(alloc, pattern)
}

/// The event of the pattern, alone.
fn events(alloc: Global) -> Result<List<TreeEvent>, AllocError>
    ensures { IfOk result (λ list. map plain_event list ≡ lost.events) }
{
    let condition = list_of(alloc, one_too_many(alloc)?)?;
    let event = TreeEvent {
        name: spelled(alloc, "lost")?,
        after: List::from_vec(Vec::new(alloc)),
        condition,
    };
    list_of(alloc, event)
}
