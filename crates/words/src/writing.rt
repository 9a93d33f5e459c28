// What a pen writes.
ghost use Rattle.std.specs.Prelude.{◌≡◌, ◌+◌, ◌≤◌, [], ◌∷◌, decimal};
ghost use Rattle.words.specs.Puts.{Writes};
ghost use Rattle.words.specs.Spelled.{spelled};

use crate::name::Name;
use crate::pen::Pen;
use crate::put::{last_digit, put_byte, put_decimal};

impl<'a> Pen<'a> {
    // A pen at the start of the buffer.
    pub fn new(out: &'a mut [u8]) -> Pen<'a>
        ensures same_buffer { result.out.ghost_name ≡ out.entry.ghost_name }
        ensures holds { result.out.now ≡ out.old }
        ensures start { result.at ≡ 0 }
    {
        Pen::at(out, 0)
    }

    // A pen at a place of the buffer, be it past its end.
    pub fn at(out: &'a mut [u8], at: usize) -> Pen<'a>
        ensures same_buffer { result.out.ghost_name ≡ out.entry.ghost_name }
        ensures holds { result.out.now ≡ out.old }
        ensures start { result.at ≡ at }
    {
        Pen { out, at }
    }

    // The place that comes next.
    pub fn place(&self) -> usize
        ensures { result ≡ self.now.at }
    {
        self.at // where it writes next
    }

    // Goes to another place, before or after its own.
    pub fn go_to(&mut self, at: usize)
        ensures same_buffer { self.new.out.ghost_name ≡ self.old.out.ghost_name }
        ensures holds { self.new.out.now ≡ self.old.out.now }
        ensures place { self.new.at ≡ at }
    {
        self.at = at;
    }

    // Writes a byte.
    pub fn byte(&mut self, b: u8)
        ensures { Writes self.old (b ∷ []) self.new }
    {
        self.at = put_byte(self.out, self.at, b);
    }

    // Writes the bytes.
    pub fn bytes(&mut self, bytes: &[u8])
        ensures { Writes self.old bytes.now self.new }
    {
        let at = self.at;
        if at < self.out.len() {
            let taken = &bytes[..bytes.len().min(self.out.len() - at)];
            for (i, b) in taken.iter().enumerate() {
                self.out[at + i] = *b;
            }
        }
        self.at = at.saturating_add(bytes.len());
    }

    // Writes `n` in decimal.
    pub fn number(&mut self, n: u32)
        ensures writes { Writes self.old (decimal n) self.new }
        ensures near { self.new.at ≤ self.old.at + 10 }
    {
        if n >= 10 {
            self.at = put_decimal(self.out, self.at, n / 10);
        }
        self.byte(last_digit(n));
    }

    // Writes the name; one letter without a loop.
    pub fn name(&mut self, name: &Name)
        ensures writes { Writes self.old (spelled name.now) self.new }
        ensures near { self.new.at ≤ self.old.at + 8 }
    {
        match name.spelling() {
            [b] => self.byte(*b),
            bytes => self.bytes(bytes),
        }
    }
}
