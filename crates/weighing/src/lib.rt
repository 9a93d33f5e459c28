// The value of a tree, given as a list of entries, over any field.
#![tactic(auto)]

ghost use Rattle.std.specs.Prelude.{◌≡◌, ◌<◌, ◌≤◌, map, length};
ghost use Rattle.automaton.specs.Tables.{automaton_of, entry_of};
ghost use Rattle.equivalence.specs.Automata.{Sound, value as value_at};
ghost use Rattle.equivalence.specs.Entries.{tree_of};
ghost use Rattle.field.specs.Algebra.{ops};
ghost use Rattle.weighing.specs.Weighing.{Stands};

use automaton::{Automaton, Entry};
use entry_vectors::Valuation;
use field::Field;

// The value, in the automaton, of the tree that a list of at most 64 entries stands for.
pub fn weigh<F: Field>(f: &F, m: &Automaton, entries: &[Entry]) -> u32
    requires sound { Sound (F.Field.model f.now).size (automaton_of m.now) }
    requires stands { Stands (map entry_of entries.now) }
    requires few { length entries.now ≤ 64 }
    ensures value { result ≡ value_at (ops (F.Field.model f.now)) (automaton_of m.now) (tree_of (map entry_of entries.now)) }
    ensures below { result < (F.Field.model f.now).size }
{
    let mut valuation = Valuation::new(f, m);
    for e in entries {
        valuation.push(e);
    }
    valuation.value()
}
