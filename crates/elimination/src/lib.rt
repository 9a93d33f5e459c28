// Elimination on vectors of codes, over any field: clearing a vector by rows, and making a row of what is left.
#![tactic(auto)]

ghost use Rattle.std.specs.Prelude.{◌≡◌, length};

pub mod clearing;
pub mod normalizing;

// A vector that is one at its pivot. As many of the codes count as the vectors are wide: the width stands once, in the basis,
// and not in each row.
#[derive(Clone, Copy)]
pub struct Row {
    pub pivot: usize,
    pub codes: [u32; 24],
    ghost room: { length codes ≡ 24 },
}
