// Trees weighed in a side.
ghost use Rattle.automaton.specs.Tables.{automaton_of, entry_of};
ghost use Rattle.equivalence.specs.Automata.{Sound};
ghost use Rattle.sides.specs.Sides.{Weighs};
ghost use Rattle.std.specs.Prelude.{map};
ghost use Rattle.table.specs.Items.{items_of};

use crate::setting::Setting;
use automaton::{Automaton, Entry, well_formed};
use field::Field;
use refusals::Refusal;
use weighing::weigh;

// The value of the tree that a list stands for, unless it stands for none or is longer than 64 entries.
pub fn weigh_in<F: Field>(
    f: &F,
    ranks: &[u32],
    m: &Automaton,
    entries: &[Entry],
) -> Result<u32, Refusal>
    requires sound { Sound (F.Field.model f.now).size (automaton_of m.now) }
    ensures { Weighs (F.Field.model f.now) ranks.now (automaton_of m.now) (map entry_of entries.now) result }
{
    if !well_formed(ranks, entries) {
        return Err(Refusal::MalformedTree);
    }
    Ok(weigh(f, m, entries))
}

impl<F: Field> Setting<F> {
    // The same over the field and the symbols of a setting.
    pub fn weigh(&self, m: &Automaton, entries: &[Entry]) -> Result<u32, Refusal>
        requires sound { Sound (F.Field.model self.now.field).size (automaton_of m.now) }
        ensures { Weighs (F.Field.model self.now.field) (items_of self.now.ranks) (automaton_of m.now) (map entry_of entries.now) result }
    {
        weigh_in(&self.field, self.ranks.items(), m, entries)
    }
}
