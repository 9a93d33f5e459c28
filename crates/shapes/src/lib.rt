// The six shapes of field that a text can name: a prime field or GF(256), with no, one or two quadratic extensions over it.
#![tactic(auto)]

mod arithmetic;
mod making;
mod reading;
pub mod shape;
