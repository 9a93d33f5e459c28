// The two sides of a comparison. At the entry points a side is a plain number: 0 is A, 1 is B.
#![tactic(auto)]

ghost use Rattle.side.specs.Numbers.{NumberOf, Numbered};

use refusals::Refusal;

mod both;

pub use both::Both;

#[derive(Clone, Copy, PartialEq, Eq)]
pub enum Side {
    A = 0,
    B = 1,
}

impl From<Side> for u32 {
    ghost from_gives = { NumberOf };

    fn from(side: Side) -> u32 {
        side as u32
    }
}

impl TryFrom<u32> for Side {
    type Error = Refusal;

    ghost try_from_gives = { Numbered };

    fn try_from(number: u32) -> Result<Side, Refusal> {
        match number {
            0 => Ok(Side::A),
            1 => Ok(Side::B),
            _ => Err(Refusal::NoSuchSide),
        }
    }
}
