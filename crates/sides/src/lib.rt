// What the automata of a comparison are over, and one side of it: rules and final weights given to it, and trees weighed in it.
#![tactic(auto)]

mod giving;
mod setting;
mod symbols;
mod weighed;

pub use giving::{give_final, give_rule};
pub use setting::Setting;
pub use weighed::weigh_in;
