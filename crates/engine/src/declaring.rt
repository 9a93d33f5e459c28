// The calls that declare, as an open session takes them.
ghost use Rattle.engine.specs.Open.{opened};
ghost use Rattle.engine.specs.States.{field_of, sides_of};
ghost use Rattle.session.specs.Calls.{Does, IfRefused, call_final, call_rule, call_symbol};
ghost use Rattle.side.specs.Numbers.{number};
ghost use Rattle.std.specs.Prelude.{◌≡◌};

use crate::state::State;
use field::Field;
use refusals::Refusal;
use side::Side;

impl<F: Field> State<F> {
    // Declares a symbol of the rank, and gives its number.
    pub fn symbol(&mut self, rank: u32) -> Result<u32, Refusal>
        ensures does { Does (F.Field.model (field_of self.old)) (opened (sides_of self.old)) (call_symbol rank) result (opened (sides_of self.new)) }
        ensures field { field_of self.new ≡ field_of self.old }
        ensures same { IfRefused result (self.new ≡ self.old) }
    {
        self.setting.add_symbol(rank)
    }

    // Gives a rule to a side.
    pub fn rule(
        &mut self,
        side: Side,
        symbol: u32,
        target: u32,
        weight: u32,
        children: &[u32],
    ) -> Result<(), Refusal>
        ensures does { Does (F.Field.model (field_of self.old)) (opened (sides_of self.old)) (call_rule (number side) symbol target weight children.now) result (opened (sides_of self.new)) }
        ensures field { field_of self.new ≡ field_of self.old }
        ensures same { IfRefused result (self.new ≡ self.old) }
    {
        let m = self.automata.at_mut(side);
        self.setting.give_rule(m, symbol, target, weight, children)
    }

    // Replaces the final weight of a state of a side.
    pub fn set_final(&mut self, side: Side, state: u32, weight: u32) -> Result<(), Refusal>
        ensures does { Does (F.Field.model (field_of self.old)) (opened (sides_of self.old)) (call_final (number side) state weight) result (opened (sides_of self.new)) }
        ensures field { field_of self.new ≡ field_of self.old }
        ensures same { IfRefused result (self.new ≡ self.old) }
    {
        self.setting
            .give_final(self.automata.at_mut(side), state, weight)
    }
}
