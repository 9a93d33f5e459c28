// The rules of an automaton, by numbers.
#![tactic(auto)]

ghost use Rattle.std.specs.Prelude.{◌<◌, ◌^◌};

use table::Table;

mod blank;

// That the weight is a `u32` is said to proofs, which bound the text of a rule by it.
#[derive(Clone, Copy)]
pub struct Rule {
    pub symbol: u32,
    pub target: u32,
    pub weight: u32,
    pub children: Table<u32, 3>,
    ghost fits: { weight < 2 ^ 32 },
}
