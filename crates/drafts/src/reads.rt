// Reading a draft.
ghost use Rattle.std.specs.Prelude.{◌≡◌, ◌-◌, ◌≤◌, map, length, slice_index};
ghost use Rattle.drafts.specs.Drafts.{rules_of, states_of, side_part};
ghost use Rattle.format.specs.Records.{state_names, symbol_names};
ghost use Rattle.rules.specs.Rules.{rule_model};
ghost use Rattle.table.specs.Items.{items_of};
ghost use Rattle.tables.specs.Names.{Finds};
ghost use Rattle.tables.specs.Tables.{state_of, symbols_of};

use crate::{Draft, Part};
use lines::Side;
use rules::Rule;
use shapes::shape::Shape;
use tables::{State, Symbol, number_of};

impl Part {
    // The states, in order.
    pub fn states(&self) -> &[State]
        ensures holds { map state_of result.now ≡ states_of self.now }
        ensures few { length result.now ≤ 12 }
    {
        self.states.items()
    }

    // The number of a state by its name, where it is declared.
    pub(crate) fn state_number(&self, name: &[u8]) -> Option<u32>
        ensures { Finds (state_names (states_of self.now)) name.now result }
    {
        number_of(self.states(), name)
    }

    // The rules, in order.
    pub fn rules(&self) -> &[Rule]
        ensures holds { map rule_model result.now ≡ rules_of self.now }
        ensures few { length result.now ≤ 256 }
    {
        self.rules.items()
    }
}

impl Draft {
    // The field.
    pub fn field(&self) -> &Shape
        ensures { result.now ≡ self.now.field }
    {
        &self.field
    }

    // The symbols, in order.
    pub fn symbols(&self) -> &[Symbol]
        ensures are { result.now ≡ items_of self.now.symbols }
        ensures few { length result.now ≤ 12 }
    {
        self.symbols.items()
    }

    // The number of a symbol by its name, where it is declared.
    pub(crate) fn symbol_number(&self, name: &[u8]) -> Option<u32>
        ensures { Finds (symbol_names (symbols_of self.now.symbols)) name.now result }
    {
        number_of(self.symbols(), name)
    }

    // The rank of a symbol by its number.
    pub fn rank(&self, number: u32) -> u32
        requires low { 1 ≤ number }
        requires high { number ≤ length (symbols_of self.now.symbols) }
        ensures is { result ≡ slice_index (map (λ s. s.rank) (symbols_of self.now.symbols)) (number - 1) }
        ensures small { result ≤ 3 }
    {
        self.symbols()[number as usize - 1].rank
    }

    // The states and rules of a side.
    pub fn part(&self, side: Side) -> &Part
        ensures { result.now ≡ side_part self.now side }
    {
        self.parts.at(side)
    }
}
