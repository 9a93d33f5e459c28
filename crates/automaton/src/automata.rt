// The calls of an automaton. Its states are numbered from 1.
ghost use Rattle.std.specs.Prelude.{◌≡◌, ◌-◌, ◌≤◌, map, length, slice_index, OnErr};
ghost use Rattle.automaton.specs.Tables.{automaton_of, blank_automaton, with_final};
ghost use Rattle.equivalence.specs.Automata.{states as many};
ghost use Rattle.rules.specs.Rules.{rule_model};
ghost use Rattle.table.specs.Items.{Adds};

use crate::Automaton;
use rules::Rule;
use table::{Full, Table};

impl Automaton {
    // So many states, all final weights zero, and no rule.
    pub fn blank(states: usize) -> Automaton
        requires { states ≤ 12 }
        ensures { automaton_of result ≡ blank_automaton states }
    {
        Automaton {
            finals: Table::filled(0, states),
            rules: Table::new(),
        }
    }

    // How many states there are.
    pub fn state_count(&self) -> usize
        ensures is { result ≡ many (automaton_of self.now) }
        ensures few { result ≤ 12 }
    {
        self.finals.len()
    }

    // The final weights of the states, in order.
    pub fn finals(&self) -> &[u32]
        ensures are { result.now ≡ (automaton_of self.now).finals }
        ensures few { length result.now ≤ 12 }
    {
        self.finals.items()
    }

    pub fn final_weight(&self, state: u32) -> u32
        requires low { 1 ≤ state }
        requires high { state ≤ many (automaton_of self.now) }
        ensures { result ≡ slice_index (automaton_of self.now).finals (state - 1) }
    {
        self.finals()[state as usize - 1]
    }

    // Replaces the final weight of one state.
    pub fn set_final(&mut self, state: u32, weight: u32)
        requires low { 1 ≤ state }
        requires high { state ≤ many (automaton_of self.old) }
        ensures { automaton_of self.new ≡ with_final (automaton_of self.old) state weight }
    {
        self.finals.set(state as usize - 1, weight);
    }

    // The rules, in order.
    pub fn rules(&self) -> &[Rule]
        ensures holds { map rule_model result.now ≡ (automaton_of self.now).rules }
        ensures few { length result.now ≤ 256 }
    {
        self.rules.items()
    }

    // One rule more, where there are fewer than 256.
    pub fn add_rule(&mut self, rule: Rule) -> Result<(), Full>
        ensures rules { Adds 256 (automaton_of self.old).rules (rule_model rule) result (automaton_of self.new).rules }
        ensures finals { (automaton_of self.new).finals ≡ (automaton_of self.old).finals }
        ensures full { OnErr result (self.new ≡ self.old) }
    {
        self.rules.push(rule)
    }
}
