// What a text declares beside its rules, and the children of a rule while it is read.
#![tactic(auto)]

ghost use Rattle.std.specs.Prelude.{◌^◌, ◌<◌, ◌≤◌};

use words::Name;

mod blank;
mod children;
mod named;

pub use children::Children;
pub use named::{Named, number_of};

#[derive(Clone, Copy)]
pub struct Symbol {
    pub name: Name,
    pub rank: u32,
    ghost small: { rank ≤ 3 },
}

#[derive(Clone, Copy)]
pub struct State {
    pub name: Name,
    pub weight: u32,
    ghost fits: { weight < 2 ^ 32 },
}
