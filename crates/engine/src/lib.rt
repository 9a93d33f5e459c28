// What has been declared of a comparison, valid by its type, and the calls on it.
#![tactic(auto)]

mod begin;
mod declaring;
mod state;
mod weighed;

pub use state::State;
