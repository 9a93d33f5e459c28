// The comparison of two tree automata over a field, by its calls. They ask nothing: a call that cannot be done is refused,
// and then alters nothing.
#![tactic(auto)]

mod begin;
mod calls;
pub mod comparison;
pub mod counts;

pub use comparison::Comparison;
pub use counts::Counts;
