//! Rules, events and patterns behind their keywords.
#![tactic(auto)]

ghost use Rattle.ta_syntax.specs.Inside.RuleBodies.{rule_body, rule_body_stated, event_body, event_body_stated, pattern_body, pattern_body_stated};
ghost use Rattle.ta_syntax.specs.FileGrammar.{event, pattern, rule};

use crate::blocks::{Block, read_blocks};
use crate::clauses::{read_ended, read_led, read_list_end, read_name_then};
use crate::fault::FileFault;
use crate::names::Spelled;
use crate::placed::Token;
use crate::reading::{expect, read_name};
use crate::tokens::Mark;
use crate::tree::{TreeComparison, TreeEvent, TreePattern, TreeRule, TreeUpdate};
use std::alloc::Global;
use ta_base::List;
use ta_base::limits::Limits;

impl Block for TreeRule {
    ghost grammar = { λ l. rule };

    ghost spelled = { λ r. rule_body r };

    ghost stated = { λ r. rule_body_stated r };

    fn read<'t>(
        alloc: Global,
        tokens: &'t [Token],
        end: u32,
        _limits: &Limits,
    ) -> Result<(TreeRule, &'t [Token]), FileFault> {
        let (name, after_name) = read_name_then(alloc, tokens, end, Mark::Colon)?;
        let (from, after_from) = read_name_then(alloc, after_name, end, Mark::Arrow)?;
        let (to, after_to) = read_name(alloc, after_from, end)?;
        let (guards, after_guards) = read_led::<TreeComparison>(
            alloc,
            after_to,
            end,
            Mark::When,
            16,
        )?;
        let (updates, after_updates) = read_led::<TreeUpdate>(
            alloc,
            after_guards,
            end,
            Mark::Do,
            16,
        )?;
        let rest = expect(after_updates, end, Mark::Semicolon)?;
        Ok((
            TreeRule {
                name,
                from,
                to,
                guards,
                updates,
            },
            rest,
        ))
    }
}

impl Block for TreeEvent {
    ghost grammar = { λ l. event };

    ghost spelled = { λ e. event_body e };

    ghost stated = { λ e. event_body_stated e };

    fn read<'t>(
        alloc: Global,
        tokens: &'t [Token],
        end: u32,
        _limits: &Limits,
    ) -> Result<(TreeEvent, &'t [Token]), FileFault> {
        let (name, after_name) = read_name(alloc, tokens, end)?;
        let (after, after_names) = read_led::<Spelled>(alloc, after_name, end, Mark::After, 8)?;
        let after_colon = expect(after_names, end, Mark::Colon)?;
        let (condition, rest) = read_list_end::<TreeComparison>(alloc, after_colon, end, 16)?;
        Ok((
            TreeEvent {
                name,
                after,
                condition,
            },
            rest,
        ))
    }
}

impl Block for TreePattern {
    ghost grammar = { λ l. pattern l };

    ghost spelled = { λ p. pattern_body p };

    ghost stated = { λ p. pattern_body_stated p };

    fn read<'t>(
        alloc: Global,
        tokens: &'t [Token],
        end: u32,
        limits: &Limits,
    ) -> Result<(TreePattern, &'t [Token]), FileFault> {
        let (name, after_name) = read_name_then(alloc, tokens, end, Mark::OpenBrace)?;
        let (start, after_start) = read_ended::<TreeComparison>(
            alloc,
            after_name,
            end,
            Mark::Start,
            16,
        )?;
        let (empty, after_empty) = read_ended::<Spelled>(
            alloc,
            after_start,
            end,
            Mark::Empty,
            limits.locations,
        )?;
        let (events, after_events) = read_blocks::<TreeEvent>(
            alloc,
            after_empty,
            end,
            Mark::Event,
            8,
            limits,
        )?;
        let rest = expect(after_events, end, Mark::CloseBrace)?;
        let pattern = TreePattern {
            name,
            start,
            empty,
            events: List::from_vec(events),
        };
        Ok((pattern, rest))
    }
}
