use gf256::Byte;
use prime::Prime;
use quadratic::Pair;

// The kind of field that a shape begins with, as a text names it.
#[derive(Clone, Copy)]
pub enum Kind {
    Residues(u32),
    Bytes,
}

// Each shape is a field: that a modulus is on the list and that an extension is one are facts in the parts' types.
#[derive(Clone, Copy)]
pub enum Shape {
    Prime(Prime),
    Byte(Byte),
    PrimePair(Pair<Prime>),
    BytePair(Pair<Byte>),
    PrimeTower(Pair<Pair<Prime>>),
    ByteTower(Pair<Pair<Byte>>),
}
