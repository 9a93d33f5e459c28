// A comparison opened from a record: its automata are those that the record declares.
#![tactic(auto)]

mod giving;
mod opened;
mod opening;

pub use opening::{of_record, open};
