// Records, read from texts and written as texts.
#![tactic(auto)]

mod exchange;
mod parts;
mod record;

pub use record::Record;
