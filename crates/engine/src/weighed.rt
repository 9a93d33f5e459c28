// The call that weighs.
ghost use Rattle.automaton.specs.Tables.{entry_of};
ghost use Rattle.engine.specs.Open.{opened};
ghost use Rattle.engine.specs.States.{field_of, sides_of};
ghost use Rattle.session.specs.Calls.{Does, call_weigh};
ghost use Rattle.side.specs.Numbers.{number};
ghost use Rattle.std.specs.Prelude.{map};

use crate::state::State;
use automaton::Entry;
use field::Field;
use refusals::Refusal;
use side::Side;

impl<F: Field> State<F> {
    // The value in a side of the tree that a list of entries stands for.
    pub fn weigh(&self, side: Side, entries: &[Entry]) -> Result<u32, Refusal>
        ensures { Does (F.Field.model (field_of self.now)) (opened (sides_of self.now)) (call_weigh (number side) (map entry_of entries.now)) result (opened (sides_of self.now)) }
    {
        self.setting.weigh(self.automata.at(side), entries)
    }
}
