// The parts of a line: cutting at a byte, numbers, names; and writing them again.
#![tactic(auto)]

ghost use Rattle.std.specs.Prelude.{◌≡◌, ℕ, MatchOption};
ghost use Rattle.words.specs.Words.{Cut, Lacks, Number};

mod name;
mod pen;
mod put;
mod spelling;
mod writing;

pub use name::Name;
pub use pen::Pen;
pub use spelling::is_name;

// The bytes before the first `stop`, and those after it.
pub fn cut(text: &[u8], stop: u8) -> Option<(&[u8], &[u8])>
    ensures { MatchOption result (Lacks stop text.now) (λ p. Cut stop text.now p.0.now p.1.now) }
{
    let i = text.iter().position(|b| *b == stop)?;
    Some((&text[..i], &text[i + 1..]))
}

// The number that `part` writes in decimal, without leading zeros, where it fits.
pub fn number(part: &[u8]) -> Option<u32>
    ensures { MatchOption result ((n : ℕ) → Number part.now n → ⊥) (λ n. Number part.now n) }
{
    let (first, rest) = part.split_first()?;
    if *first == b'0' && rest.len() > 0 {
        return None;
    }
    let mut n: u32 = 0;
    for b in part {
        let digit = (*b as char).to_digit(10)?;
        n = n.checked_mul(10)?.checked_add(digit)?;
    }
    Some(n)
}
