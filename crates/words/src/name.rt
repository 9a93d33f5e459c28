// Names of at most eight bytes, held by value.
ghost use Rattle.std.specs.Prelude.{◌≡◌, ◌-◌, ◌≤◌, true, length, take, drop, replicate};
ghost use Rattle.words.specs.Words.{is_name};

// A name, padded with zeros, so that names with the same bytes are the same record.
// An array with a length beside it: no heap holds a name, and a name is copied.
#[derive(Clone, Copy, PartialEq, Eq)]
pub struct Name {
    pub(crate) bytes: [u8; 8],
    pub(crate) len: usize,
    ghost width: { length bytes ≡ 8 },
    ghost short: { len ≤ 8 },
    ghost named: { is_name (take len bytes) ≡ true },
    ghost padded: { drop len bytes ≡ replicate (8 - len) 0 },
}
