// What the lines of a text have declared so far, with one method for each kind of value line.
#![tactic(auto)]

ghost use Rattle.std.specs.Prelude.{◌≤◌};

use rules::Rule;
use shapes::shape::Shape;
use side::Both;
use table::Table;
use tables::{State, Symbol};

mod counts;
mod reads;
mod values;

// The states and rules of one side.
#[derive(Clone, Copy)]
pub struct Part {
    pub states: Table<State, 12>,
    pub rules: Table<Rule, 256>,
}

// The field so far with the number of extensions announced, the symbols, and the two sides.
#[derive(Clone, Copy)]
pub struct Draft {
    pub(crate) field: Shape,
    pub(crate) announced: u32,
    pub(crate) symbols: Table<Symbol, 12>,
    pub(crate) parts: Both<Part>,
    ghost two: { announced ≤ 2 },
}
