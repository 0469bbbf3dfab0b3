//! Steps of a configuration, one firing or many in a row.
//!
//! A step works on copies, so a refusal changes nothing. The values behind it have the updates
//! added with the factor. Fall guards are evaluated before the last firing, so on copies with the
//! factor less 1; rise guards before the first, since they stay true.
#![tactic(auto)]

ghost use Rattle.std.specs.Prelude.{◌≡◌, ◌<◌, ◌≤ℤ◌, pos, length, unsigned_abs, OnOk, OnErr, IfErr};
ghost use Rattle.ta_counter.specs.Configs.{config_of, IsOf};
ghost use Rattle.ta_counter.specs.Steps.{Fires, StepAnswer, NoSteps};

use crate::config::Config;
use crate::fault::StepFault;
use crate::updates::values_after;
use ta_automaton::Automaton;

impl Config {
    /// Fires a rule once.
    pub fn unit_step(&mut self, automaton: &Automaton, rule: u32) -> Result<(), StepFault>
        requires is_of { IsOf automaton.now self.old }
        requires exists { rule < length automaton.now.rules }
        ensures answer { StepAnswer automaton.now rule (pos 1) self.old.values.items self.new.values.items result }
        ensures unchanged { OnErr result (self.new ≡ self.old) }
        ensures is_of { IsOf automaton.now self.new }
        ensures steps { OnOk result (Fires automaton.now rule 1 (config_of automaton.now self.old) (config_of automaton.now self.new)) }
        ensures no_steps { IfErr result (λ fault. NoSteps automaton.now rule (pos 1) self.old fault) }
    {
        self.accelerated_step(automaton, rule, 1)
    }

    /// Fires a rule `factor` times in a row.
    pub fn accelerated_step(
        &mut self,
        automaton: &Automaton,
        rule: u32,
        factor: i128,
    ) -> Result<(), StepFault>
        requires is_of { IsOf automaton.now self.old }
        requires exists { rule < length automaton.now.rules }
        requires factor { pos 1 ≤ℤ factor }
        ensures answer { StepAnswer automaton.now rule factor self.old.values.items self.new.values.items result }
        ensures unchanged { OnErr result (self.new ≡ self.old) }
        ensures is_of { IsOf automaton.now self.new }
        ensures steps { OnOk result (Fires automaton.now rule (unsigned_abs factor) (config_of automaton.now self.old) (config_of automaton.now self.new)) }
        ensures no_steps { IfErr result (λ fault. NoSteps automaton.now rule factor self.old fault) }
    {
        let rule = &automaton.rules.as_slice()[rule as usize];
        let after = values_after(automaton, rule, factor, self.values.as_slice())?;
        self.values = after;
        Ok(())
    }
}
