//! Sums and comparisons of the family.
#![tactic(auto)]

ghost use Rattle.std.specs.Prelude.{◌≡◌, IfOk, codes};
ghost use Rattle.ta_syntax.specs.Grammar.{number};
ghost use Rattle.ta_syntax.specs.PlainSums.{plain_sum, plain_term};
ghost use Rattle.ta_syntax.specs.PlainTrees.{plain_comparison};
ghost use Rattle.ta_maker.specs.Family.{at_least, lone, name, pair};

use crate::names::{one, spelled};
use std::alloc::{AllocError, Global};
use ta_syntax::{Relation, Sign, Spelled, TreeComparison, TreeFactor, TreeSum, TreeTerm};

/// The term of a name.
pub(crate) fn name_term(named: Spelled) -> TreeTerm
    ensures { plain_term result ≡ name named.name }
{
    TreeTerm {
        at: 0,
        factor: None,
        body: Some(TreeFactor::Named(named)),
    }
}

/// The term of the number 1.
fn one_term(alloc: Global) -> Result<TreeTerm, AllocError>
    ensures { IfOk result (λ it. plain_term it ≡ number (codes "1")) }
{
    Ok(TreeTerm {
        at: 0,
        factor: Some(one(alloc)?),
        body: None,
    })
}

/// The sum of one term.
pub(crate) fn lone(alloc: Global, term: TreeTerm) -> Result<TreeSum, AllocError>
    ensures { IfOk result (λ it. plain_sum it ≡ lone (plain_term term)) }
{
    let mut terms = Vec::new(alloc);
    terms.push((Sign::Plus, term))?;
    Ok(TreeSum { terms })
}

/// The sum of two terms.
fn pair(alloc: Global, first: TreeTerm, second: TreeTerm) -> Result<TreeSum, AllocError>
    ensures { IfOk result (λ it. plain_sum it ≡ pair (plain_term first) (plain_term second)) }
{
    let mut terms = Vec::new(alloc);
    terms.push((Sign::Plus, first))?;
    terms.push((Sign::Plus, second))?;
    Ok(TreeSum { terms })
}

/// A name is at least 1.
pub(crate) fn at_least_one(alloc: Global, named: Spelled) -> Result<TreeComparison, AllocError>
    ensures { IfOk result (λ it. plain_comparison it ≡ at_least (lone (name named.name)) (lone (number (codes "1")))) }
{
    let left = lone(alloc, name_term(named))?;
    let right = lone(alloc, one_term(alloc)?)?;
    Ok(TreeComparison {
        at: 0,
        left,
        relation: Relation::AtLeast,
        right,
    })
}

/// There are more processes in the two locations than there are.
pub(crate) fn one_too_many(alloc: Global) -> Result<TreeComparison, AllocError>
    ensures { IfOk result (λ it. plain_comparison it ≡ at_least (pair (name (codes "A")) (name (codes "B"))) (pair (name (codes "n")) (number (codes "1")))) }
{
    let left = both_locations(alloc)?;
    let right = one_more(alloc)?;
    Ok(TreeComparison {
        at: 0,
        left,
        relation: Relation::AtLeast,
        right,
    })
}

/// The processes in the two locations.
fn both_locations(alloc: Global) -> Result<TreeSum, AllocError>
    ensures { IfOk result (λ it. plain_sum it ≡ pair (name (codes "A")) (name (codes "B"))) }
{
    let first = name_term(spelled(alloc, "A")?);
    let second = name_term(spelled(alloc, "B")?);
    pair(alloc, first, second)
}

/// One more than the processes that there are.
fn one_more(alloc: Global) -> Result<TreeSum, AllocError>
    ensures { IfOk result (λ it. plain_sum it ≡ pair (name (codes "n")) (number (codes "1"))) }
{
    let all = name_term(spelled(alloc, "n")?);
    let one = one_term(alloc)?;
    pair(alloc, all, one)
}
