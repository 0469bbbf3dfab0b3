//! Laws of runs. The function does nothing: its contract states the laws.
#![tactic(auto)]

ghost use Rattle.ta_automaton.specs.Laws.{CountersAddUp, ParametersStay, SharedNeverFalls, RiseGuardsStayTrue, FallGuardsStayFalse, CountersByFirings, SharedByFirings, SomeUnsafe};

/// It does nothing: its contract states the laws of runs.
pub fn laws()
    ensures counters_add_up { CountersAddUp }
    ensures parameters_stay { ParametersStay }
    ensures shared_never_falls { SharedNeverFalls }
    ensures rise_guards_stay_true { RiseGuardsStayTrue }
    ensures fall_guards_stay_false { FallGuardsStayFalse }
    ensures counters_by_firings { CountersByFirings }
    ensures shared_by_firings { SharedByFirings }
    ensures some_unsafe { SomeUnsafe }
{}
