// What both sides have.
ghost use Rattle.side.specs.Both.{at, with_at};
ghost use Rattle.side.specs.contracts.both.Both.{the_row};
ghost use Rattle.std.specs.Borrow.{Lends, sem};
ghost use Rattle.std.specs.Prelude.{◌≡◌};

use crate::Side;

#[derive(Clone, Copy)]
pub struct Both<T> {
    pub a: T,
    pub b: T,
}

impl<T> Both<T> {
    // What a side has.
    pub fn at(&self, side: Side) -> &T
        ensures { result.now ≡ at self.now side }
    {
        match side {
            Side::A => &self.a,
            Side::B => &self.b,
        }
    }

    // The same, to be altered.
    pub fn at_mut(&mut self, side: Side) -> &mut T
        ensures* lends { sem 𝓛 (Lends (the_row T.row) T.row self.entry result (with_at self.entry.now side)) }
        ensures value { result.now ≡ at self.old side }
    {
        match side {
            Side::A => &mut self.a,
            Side::B => &mut self.b,
        }
    }
}
