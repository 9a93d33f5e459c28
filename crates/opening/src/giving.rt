// A record's lists given to an open comparison, by its calls. What the calls check holds of the lists, so none is refused.
ghost use Rattle.std.specs.Prelude.{◌≡◌, ◌+◌, ◌<◌, ◌≤◌, [], map, length};
ghost use Rattle.equivalence.specs.Automata.{states as many};
ghost use Rattle.opening.specs.Opened.{field_of, session};
ghost use Rattle.opening.specs.Opening.{automaton_of, final_of, rank_of, with_finals, with_rules, with_symbols};
ghost use Rattle.rules.specs.Rules.{rule_model};
ghost use Rattle.session.specs.Sessions.{side as side_at, with_side, with_sides};
ghost use Rattle.session.specs.Validity.{ValidRule, ValidSide};
ghost use Rattle.side.specs.Numbers.{number};
ghost use Rattle.std.specs.List.{AllByRecursion};

use crate::opened::Opened;
use field::Field;
use rules::Rule;
use side::Side;
use tables::{State, Symbol};

impl<F: Field> Opened<F> {
    // Declares the symbols, after those declared before.
    pub(crate) fn give_symbols(&mut self, symbols: &[Symbol])
        requires room { length (session self.old).sides.ranks + length symbols.now ≤ 12 }
        ensures holds { session self.new ≡ with_sides (session self.old) (with_symbols (session self.old).sides (map rank_of symbols.now)) }
        ensures field { field_of self.new ≡ field_of self.old }
    {
        for symbol in symbols {
            self.comparison.symbol(symbol.rank).unwrap();
        }
    }

    // Gives all states of a side their final weights.
    pub(crate) fn give_finals(&mut self, side: Side, states: &[State])
        requires few { length states.now ≤ 12 }
        requires all { many (side_at (session self.old).sides (number side)) ≡ length states.now }
        requires below { AllByRecursion (λ w. w < (F.Field.model (field_of self.old)).size) (map final_of states.now) }
        ensures holds { session self.new ≡ with_sides (session self.old) (with_finals (session self.old).sides (number side) (map final_of states.now)) }
        ensures field { field_of self.new ≡ field_of self.old }
    {
        for (i, state) in states.iter().enumerate() {
            self.comparison
                .set_final(side.into(), i as u32 + 1, state.weight)
                .unwrap();
        }
    }

    // Gives a side the rules, after those that it has.
    pub(crate) fn give_rules(&mut self, side: Side, rules: &[Rule])
        requires room { length (side_at (session self.old).sides (number side)).rules + length rules.now ≤ 256 }
        requires valid { AllByRecursion (ValidRule (F.Field.model (field_of self.old)).size (session self.old).sides.ranks (many (side_at (session self.old).sides (number side)))) (map rule_model rules.now) }
        ensures holds { session self.new ≡ with_sides (session self.old) (with_rules (session self.old).sides (number side) (map rule_model rules.now)) }
        ensures field { field_of self.new ≡ field_of self.old }
    {
        for rule in rules {
            let children = rule.children.items();
            self.comparison
                .rule(side.into(), rule.symbol, rule.target, rule.weight, children)
                .unwrap();
        }
    }

    // Makes a side that has no rule yet the automaton of the states and rules.
    pub(crate) fn give_side(&mut self, side: Side, states: &[State], rules: &[Rule])
        requires bare { (side_at (session self.old).sides (number side)).rules ≡ [] }
        requires few { length states.now ≤ 12 }
        requires valid { ValidSide (F.Field.model (field_of self.old)).size (session self.old).sides.ranks (many (side_at (session self.old).sides (number side))) (automaton_of states.now rules.now) }
        ensures holds { session self.new ≡ with_sides (session self.old) (with_side (session self.old).sides (number side) (automaton_of states.now rules.now)) }
        ensures field { field_of self.new ≡ field_of self.old }
    {
        self.give_finals(side, states);
        self.give_rules(side, rules);
    }
}
