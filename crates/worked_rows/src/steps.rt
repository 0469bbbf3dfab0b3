//! Rows of steps from initial configurations.
#![tactic(auto)]

ghost use Rattle.ta_counter.specs.Configs.{IsOf};

use crate::given::Given;
use crate::table::cut;
use std::alloc::AllocError;
use ta_automaton::Automaton;
use ta_counter::Config;
use ta_scope::ScopedFile;

/// The values of the configuration with one parameter and one start count, and behind each step,
/// `RULE*FACTOR`, its error, if any, and the values.
pub fn steps(given: &mut Given, automaton: &Automaton, rest: &str) {
    let mut words = rest.split(" ");
    let parameters = [i128::from(number_of(words.next().unwrap_or("")))];
    let counts = [i128::from(number_of(words.next().unwrap_or("")))];
    if automaton.parameters.as_slice().len() != 1 || automaton.initial.as_slice().len() != 1 {
        return given.say("one parameter and one start count are wanted");
    }
    let mut config = match Config::start(automaton, &parameters, &counts) {
        Ok(config) => config,
        Err(fault) => return given.value(&fault),
    };
    say_values(given, &config);
    for word in words {
        say_step(given, automaton, &mut config, word);
        say_values(given, &config);
    }
}

/// Takes a rule so many times at once, and writes the error, if any.
fn say_step(given: &mut Given, automaton: &Automaton, config: &mut Config, word: &str)
    requires { IsOf automaton.now config.old }
    ensures { IsOf automaton.now config.new }
{
    let (rule, factor) = word.split_once("*").unwrap_or((word, "1"));
    let (rule, factor) = (number_of(rule), number_of(factor));
    if rule as usize >= automaton.rules.as_slice().len() || factor == 0 {
        return given.say("no such step\n");
    }
    let taken = if factor == 1 {
        config.unit_step(automaton, rule)
    } else {
        config.accelerated_step(automaton, rule, i128::from(factor))
    };
    if let Err(fault) = taken {
        given.value(&fault);
        given.say("\n");
    }
}

fn say_values(given: &mut Given, config: &Config) {
    let mut before = "";
    for value in config.values() {
        given.number(before, *value);
        before = " ";
    }
    given.say("\n");
}

fn number_of(word: &str) -> u32 {
    word.parse::<u32>().unwrap_or(0)
}

/// The steps of three counts, `RULE*FACTOR` each, once circulations are taken out.
pub fn arranged(given: &mut Given, scoped: &ScopedFile, rest: &str) -> Result<(), AllocError> {
    let (first, rest) = cut(rest);
    let (second, rest) = cut(rest);
    let counts = [
        i128::from(number_of(first)),
        i128::from(number_of(second)),
        i128::from(number_of(rest)),
    ];
    if scoped.file.automaton.rules.as_slice().len() != 3 {
        return given.end("three rules are wanted");
    }
    let arranged = scoped.arrange(given.alloc, &counts)?;
    given.say("steps");
    given.pairs("*", arranged.steps.as_slice());
    Ok(())
}
