//! Automata.
#![tactic(auto)]

ghost use Rattle.ta_automaton.specs.Shape.{AutomatonShape, AutomatonShape-prop};

use crate::condition::Condition;
use crate::rule::Rule;
use ta_base::{List, Text};
use ta_linear::{Form, Row};

/// A threshold automaton. Places are numbered: parameters, then shared variables, then locations.
/// `initial` lists location numbers (from 0), `processes` is the number of processes as a form over
/// the parameters, and a guard is the row that has to be at least 0.
#[derive(Drop)]
pub struct Automaton {
    pub name: Text,
    pub parameters: List<Text>,
    pub shared: List<Text>,
    pub locations: List<Text>,
    pub initial: List<u32>,
    pub processes: Form,
    pub resilience: Condition,
    pub rise: List<Row>,
    pub fall: List<Row>,
    pub rules: List<Rule>,
    pub ghost shape: { AutomatonShape name parameters shared locations initial processes resilience rise fall rules } by { AutomatonShape-prop name parameters shared locations initial processes resilience rise fall rules },
}
