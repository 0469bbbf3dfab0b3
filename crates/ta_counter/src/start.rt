//! Where a configuration starts.
#![tactic(auto)]

ghost use Rattle.std.specs.Prelude.{ℤ, pos, ◌≡◌, ◌≤◌, ◌++◌, List, length, replicate, take, IfOk, IfErr, OkIff};
ghost use Rattle.std.specs.List.{AllByRecursion};
ghost use Rattle.ta_linear.specs.Numbers.{InRange};
ghost use Rattle.ta_automaton.specs.Runs.{Initial};
ghost use Rattle.ta_counter.specs.Values.{Value};
ghost use Rattle.ta_counter.specs.Configs.{config_of, IsOf, sum_of, places_of};
ghost use Rattle.ta_counter.specs.Inside.Filling.{Filling};
ghost use Rattle.ta_counter.specs.Starts.{StartAnswer, StartChecked, StartsAt, NoStart};

use crate::condition::first_false;
use crate::config::{Config, Places};
use crate::fault::StartFault;
use crate::updates::copy_of;
use ta_automaton::Automaton;
use ta_linear::{OutOfRange, plus};

impl Config {
    /// The configuration with these parameters, these counts at the initial locations in order, and
    /// 0 elsewhere.
    pub fn start(
        automaton: &Automaton,
        parameters: &[i128],
        counts: &[i128],
    ) -> Result<Config, StartFault>
        requires parameters { length parameters.now ≡ length automaton.now.parameters }
        requires parameters_natural { AllByRecursion Value parameters.now }
        requires counts { length counts.now ≡ length automaton.now.initial }
        requires counts_natural { AllByRecursion Value counts.now }
        ensures answer { StartAnswer automaton.now parameters.now counts.now result }
        ensures initial { IfOk result (λ config. Initial automaton.now (config_of automaton.now config)) }
        ensures is_of { IfOk result (λ config. IsOf automaton.now config) }
        ensures no_start { IfErr result (λ fault. NoStart automaton.now parameters.now counts.now fault) }
    {
        check_start(automaton, parameters, counts)?;
        Ok(Config {
            values: start_values(automaton, parameters, counts),
        })
    }
}

/// Whether the resilience condition holds, and the counts add up to the number of processes.
fn check_start(
    automaton: &Automaton,
    parameters: &[i128],
    counts: &[i128],
) -> Result<(), StartFault>
    requires parameters { length parameters.now ≡ length automaton.now.parameters }
    requires natural { AllByRecursion Value counts.now }
    ensures { StartChecked automaton.now parameters.now counts.now result }
{
    if let Some(number) = first_false(&automaton.resilience, parameters)? {
        return Err(StartFault::Resilience(number));
    }
    let processes = automaton.processes.value_at(parameters)?;
    let started = sum(counts)?;
    if processes != started {
        return Err(StartFault::Processes);
    }
    Ok(())
}

/// The sum, from left to right.
fn sum(counts: &[i128]) -> Result<i128, OutOfRange>
    requires { AllByRecursion Value counts.now }
    ensures { OkIff result (InRange (sum_of counts.now)) (sum_of counts.now) }
{
    let mut sum = 0;
    for count in counts {
        let Some(next) = plus(sum, *count) else {
            return Err(OutOfRange);
        };
        sum = next;
    }
    Ok(sum)
}

/// The parameters, zeros, and the counts at the initial locations.
fn start_values(automaton: &Automaton, parameters: &[i128], counts: &[i128]) -> Places
    requires parameters { length parameters.now ≡ length automaton.now.parameters }
    requires parameters_natural { AllByRecursion Value parameters.now }
    requires counts { length counts.now ≡ length automaton.now.initial }
    requires counts_natural { AllByRecursion Value counts.now }
    ensures { Filling automaton.now parameters.now counts.now result.items (length automaton.now.initial) }
{
    let more = automaton.shared.as_slice().len() + automaton.locations.as_slice().len();
    let mut values = with_zeros(parameters, more);
    fill_counts(automaton, counts, values.as_mut_slice());
    values
}

/// Values, and so many zeros behind them.
fn with_zeros(values: &[i128], more: usize) -> Places
    requires more { more ≤ 192 }
    requires few { length values.now ≤ 32 }
    ensures { result.items ≡ values.now ++ take more (replicate 192 (pos 0)) }
{
    let mut all = copy_of(values);
    let zeros = [0; 192];
    let _extended = all.try_extend_from_slice(&zeros[..more]);
    all
}

/// Writes the counts at the initial locations.
fn fill_counts(automaton: &Automaton, counts: &[i128], values: &mut [i128])
    requires counts { length counts.now ≡ length automaton.now.initial }
    requires counts_natural { AllByRecursion Value counts.now }
    requires places { length values.old ≡ places_of automaton.now }
    ensures { (parameters : List ℤ) → Filling automaton.now parameters counts.now values.old 0 → Filling automaton.now parameters counts.now values.new (length automaton.now.initial) }
{
    let first = automaton.parameters.as_slice().len() + automaton.shared.as_slice().len();
    for (number, location) in automaton.initial.as_slice().iter().enumerate() {
        values[first + *location as usize] = counts[number];
    }
}
