// The places of a text, and which lines may come next at each.
#![tactic(auto)]

mod following;
mod place;

pub use following::{is_end, may_follow};
pub use place::Place;
