// Reading and comparing names.
ghost use Rattle.std.specs.Prelude.{◌≡◌, ◌+◌, ◌^◌, ◌<◌, ◌≤◌, false, [], ◌∷◌, length, Decides, MatchOption};
ghost use Rattle.words.specs.Spelled.{spelled};
ghost use Rattle.words.specs.Words.{inner, is_name};

use crate::name::Name;

// Whether the byte may stand in a name after the first.
fn is_inner(b: u8) -> bool
    ensures { result ≡ inner b }
{
    b.is_ascii_lowercase() || b.is_ascii_digit() || b == b'_'
}

// Whether the bytes are a name.
pub fn is_name(part: &[u8]) -> bool
    ensures { result ≡ is_name part.now }
{
    match part {
        [] => false,
        [first, rest @ ..] => {
            rest.len() <= 7 && first.is_ascii_lowercase() && rest.iter().all(|b| is_inner(*b))
        }
    }
}

impl Name {
    // The name `a`.
    pub fn a() -> Name
        ensures { spelled result ≡ 97 ∷ [] }
    {
        Name {
            bytes: [b'a', 0, 0, 0, 0, 0, 0, 0],
            len: 1,
        }
    }

    // The name with these bytes, where they are a name.
    pub fn new(part: &[u8]) -> Option<Name>
        ensures { MatchOption result (is_name part.now ≡ false) (λ n. spelled n ≡ part.now) }
    {
        if !is_name(part) {
            return None;
        }
        let mut bytes = [0; 8];
        bytes[..part.len()].copy_from_slice(part);
        Some(Name {
            bytes,
            len: part.len(),
        })
    }

    // The bytes of the name.
    pub fn spelling(&self) -> &[u8]
        ensures { result.now ≡ spelled self.now }
    {
        &self.bytes[..self.len]
    }

    // Whether these are the bytes of the name.
    pub fn is(&self, part: &[u8]) -> bool
        ensures { Decides result (spelled self.now ≡ part.now) }
    {
        self.spelling() == part
    }

    // Whether the names have the same bytes; `==` says the same of their records.
    pub fn equals(&self, other: &Name) -> bool
        ensures { Decides result (spelled self.now ≡ spelled other.now) }
    {
        self.is(other.spelling())
    }
}
