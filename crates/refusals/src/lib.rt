// Why something asked is refused: one enum for the whole system, each case with its number. Those from 101 on are faults of
// what is given, those from 201 on of when it is given, or of room.
#![tactic(auto)]

ghost use Rattle.refusals.specs.Numbers.{number};
ghost use Rattle.std.specs.Prelude.{◌≡◌};

#[derive(Clone, Copy, PartialEq, Eq)]
pub enum Refusal {
    TextTooLong = 101,
    Malformed = 102,
    NoSuchModulus = 103,
    NoExtension = 104,
    WeightTooLarge = 105,
    StateCountOutOfRange = 106,
    Undeclared = 107,
    Repeated = 108,
    WrongChildren = 109,
    RankTooLarge = 110,
    NoSuchSide = 111,
    MalformedTree = 112,
    BufferTooShort = 113,
    Sealed = 201,
    NotSealed = 202,
    Ended = 203,
    NotEnded = 204,
    TableFull = 205,
}

impl Refusal {
    // The number by which a refusal is reported.
    pub fn number(self) -> u32
        ensures { result ≡ number self }
    {
        self as u32
    }
}

impl From<Refusal> for u32 {
    ghost from_gives = { λ r n. n ≡ number r };

    fn from(refusal: Refusal) -> u32 {
        refusal.number()
    }
}
