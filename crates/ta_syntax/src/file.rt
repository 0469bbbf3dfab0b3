//! Reading automaton files.
#![tactic(auto)]

ghost use Rattle.std.specs.Prelude.{◌≡◌, ◌≤◌, length, IfErr, IfOk, MatchResult};
ghost use Rattle.ta_syntax.specs.Grammar.{FileText, PlainTree};
ghost use Rattle.ta_syntax.specs.PlainTrees.{plain_tree};
ghost use Rattle.ta_syntax.specs.Limits.{at_start, IsTreeWithin};
ghost use Rattle.ta_syntax.specs.Faults.{IsStopped, FirstGrammarFault};
ghost use Rattle.ta_syntax.specs.FileGrammar as grammar;
ghost use Rattle.ta_syntax.specs.FileReading.{IsBodyFault, IsSpelled, TookBody, TookHead, TookNames, TookPlaces, TookProcesses, locations_kinds, locations_stated, places};
ghost use Rattle.ta_syntax.specs.Reading.{Halts, TookSome};
ghost use Rattle.ta_syntax.specs.TreeOf.{IsTextOf, IsTreeOf};

use crate::blocks::read_blocks;
use crate::clauses::{read_declared, read_list_end, read_name_then};
use crate::fault::FileFault;
use crate::names::Spelled;
use crate::placed::Token;
use crate::reading::{expect, first_offset, read_sum};
use crate::scanner::scan;
use crate::sums::TreeSum;
use crate::tokens::Mark;
use crate::tree::{Tree, TreeComparison, TreeLocation, TreePattern, TreeRule};
use std::alloc::Global;
use ta_base::List;
use ta_base::limits::{FILE_BYTES, Limits};

/// Reads an automaton file within the limits.
pub fn read_tree(alloc: Global, bytes: &[u8], limits: &Limits) -> Result<Tree, FileFault>
    requires { length bytes.now ≤ FILE_BYTES }
    ensures exact { MatchResult result (λ t. IsTreeOf limits.now bytes.now t) (λ e. FirstGrammarFault limits.now bytes.now e) }
    ensures alone { IfOk result (λ t. (u : PlainTree) → IsTextOf bytes.now u → u ≡ plain_tree t) }
    ensures only { (t : PlainTree) → IsTextOf bytes.now t → IsTreeWithin limits.now t → IfErr result (λ e. e ≡ FileFault.Memory) }
{
    let tokens = scan(alloc, bytes)?;
    let tree = read_file(alloc, tokens.as_slice(), bytes.len() as u32, limits)?;
    Ok(tree)
}

/// The names with which a file begins.
#[derive(Drop)]
struct Names {
    name: Spelled,
    parameters: List<Spelled>,
    shared: List<Spelled>,
}

/// The locations and the number of processes, with the offsets of their clauses.
#[derive(Drop)]
struct Places {
    locations_at: u32,
    locations: List<TreeLocation>,
    processes_at: u32,
    processes: TreeSum,
}

/// What a file says before its resilience condition.
#[derive(Drop)]
struct Head {
    names: Names,
    places: Places,
}

/// What a file says from its resilience condition on.
#[derive(Drop)]
struct Body {
    resilience: List<TreeComparison>,
    rules: List<TreeRule>,
    patterns: List<TreePattern>,
}

/// Reads the names with which an automaton file begins.
fn read_names<'t>(
    alloc: Global,
    tokens: &'t [Token],
    end: u32,
    limits: &Limits,
) -> Result<(Names, &'t [Token]), FileFault>
    ensures { MatchResult result (λ x. TookNames limits.now x.0 tokens.now x.1.now) (λ e. Halts (grammar.head limits.now) end tokens.now e) }
{
    let begun = expect(tokens, end, Mark::Automaton)?;
    let (name, after_name) = read_name_then(alloc, begun, end, Mark::Semicolon)?;
    let (parameters, after_parameters) = read_declared::<Spelled>(
        alloc,
        after_name,
        end,
        Mark::Parameters,
        limits.parameters,
    )?;
    let (shared, rest) = read_declared::<Spelled>(
        alloc,
        after_parameters,
        end,
        Mark::Shared,
        limits.shared,
    )?;
    let names = Names {
        name,
        parameters,
        shared,
    };
    Ok((names, rest))
}

/// Reads the locations and the number of processes.
fn read_places<'t>(
    alloc: Global,
    tokens: &'t [Token],
    end: u32,
    limits: &Limits,
) -> Result<(Places, &'t [Token]), FileFault>
    ensures { MatchResult result (λ x. TookPlaces limits.now x.0 tokens.now x.1.now) (λ e. Halts (places limits.now) end tokens.now e) }
{
    let (locations_at, locations, after_locations) = read_locations(alloc, tokens, end, limits)?;
    let (processes_at, processes, rest) = read_processes(alloc, after_locations, end)?;
    let places = Places {
        locations_at,
        locations,
        processes_at,
        processes,
    };
    Ok((places, rest))
}

/// Reads the head of an automaton file.
fn read_head<'t>(
    alloc: Global,
    tokens: &'t [Token],
    end: u32,
    limits: &Limits,
) -> Result<(Head, &'t [Token]), FileFault>
    ensures { MatchResult result (λ x. TookHead limits.now x.0 tokens.now x.1.now) (λ e. Halts (grammar.head limits.now) end tokens.now e) }
{
    let (names, after_names) = read_names(alloc, tokens, end, limits)?;
    let (places, rest) = read_places(alloc, after_names, end, limits)?;
    Ok((Head { names, places }, rest))
}

/// Reads what stands behind the head, up to the end of the file.
fn read_body(alloc: Global, tokens: &[Token], end: u32, limits: &Limits) -> Result<Body, FileFault>
    ensures { MatchResult result (λ b. TookBody limits.now b tokens.now) (λ e. IsBodyFault limits.now end tokens.now e) }
{
    let (resilience, after_resilience) = read_declared::<TreeComparison>(
        alloc,
        tokens,
        end,
        Mark::Resilience,
        16,
    )?;
    let (rules, after_rules) = read_blocks::<TreeRule>(
        alloc,
        after_resilience,
        end,
        Mark::Rule,
        limits.rules,
        limits,
    )?;
    let (patterns, rest) = read_blocks::<TreePattern>(
        alloc,
        after_rules,
        end,
        Mark::Pattern,
        limits.patterns,
        limits,
    )?;
    if let Some((first, _)) = rest.split_first() {
        return Err(FileFault::Syntax(first.at));
    }
    Ok(Body {
        resilience,
        rules: List::from_vec(rules),
        patterns: List::from_vec(patterns),
    })
}

/// Reads the tokens of an automaton file.
fn read_file(alloc: Global, tokens: &[Token], end: u32, limits: &Limits) -> Result<Tree, FileFault>
    ensures { MatchResult result (λ t. IsSpelled limits.now t tokens.now) (λ e. IsStopped limits.now FileText at_start end tokens.now e) }
{
    let (head, after_head) = read_head(alloc, tokens, end, limits)?;
    let body = read_body(alloc, after_head, end, limits)?;
    let Head { names, places } = head;
    let Names {
        name,
        parameters,
        shared,
    } = names;
    let Places {
        locations_at,
        locations,
        processes_at,
        processes,
    } = places;
    let Body {
        resilience,
        rules,
        patterns,
    } = body;
    Ok(Tree {
        name,
        parameters,
        shared,
        locations_at,
        locations,
        processes_at,
        processes,
        resilience,
        rules,
        patterns,
    })
}

/// Reads the locations, with the offset of their keyword.
fn read_locations<'t>(
    alloc: Global,
    tokens: &'t [Token],
    end: u32,
    limits: &Limits,
) -> Result<(u32, List<TreeLocation>, &'t [Token]), FileFault>
    ensures { MatchResult result (λ x. TookSome limits.now.locations x.1 (grammar.locations limits.now) (locations_kinds x.1) (locations_stated x.0 x.1) tokens.now x.2.now) (λ e. Halts (grammar.locations limits.now) end tokens.now e) }
{
    let at = first_offset(tokens, end);
    let begun = expect(tokens, end, Mark::Locations)?;
    let (locations, rest) = read_list_end::<TreeLocation>(alloc, begun, end, limits.locations)?;
    Ok((at, locations, rest))
}

/// Reads the number of processes, with the offset of its first token.
fn read_processes(
    alloc: Global,
    tokens: &[Token],
    end: u32,
) -> Result<(u32, TreeSum, &[Token]), FileFault>
    ensures { MatchResult result (λ x. TookProcesses x.0 x.1 tokens.now x.2.now) (λ e. Halts grammar.processes end tokens.now e) }
{
    let begun = expect(tokens, end, Mark::Processes)?;
    let at = first_offset(begun, end);
    let (sum, after_sum) = read_sum(alloc, begun, end, 32)?;
    let rest = expect(after_sum, end, Mark::Semicolon)?;
    Ok((at, sum, rest))
}
