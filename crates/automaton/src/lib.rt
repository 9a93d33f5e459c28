// An automaton as tables of states and rules, the ranks of the symbols, and trees as lists of entries.
#![tactic(auto)]

ghost use Rattle.std.specs.Prelude.{◌≡◌, length};

use rules::Rule;
use table::Table;

mod automata;
mod entries;

pub use entries::{rank_of, well_formed};

// The final weights of the states, and the rules.
#[derive(Clone, Copy)]
pub struct Automaton {
    finals: Table<u32, 12>,
    rules: Table<Rule, 256>,
}

// An entry of a list that stands for a tree: a symbol over earlier entries, 0 where there is no child; trees are given to a
// comparison in these numbers.
#[derive(Clone, Copy)]
pub struct Entry {
    pub symbol: u32,
    pub children: [u32; 3],
    ghost width: { length children ≡ 3 },
}
