// The lines of a text: what a line says, and reading one.
#![tactic(auto)]

ghost use Rattle.std.specs.Prelude.{◌≡◌, ◌<◌, [], ◌∷◌, length, MatchOption};
ghost use Rattle.lines.specs.Recognized.{parted, Recognized};

use kinds::{field, heading, pair, rule, side, state};
use words::cut;

mod kinds;
mod line;

pub use line::{Block, Line};
pub use side::Side;

// The line that the bytes write, where they write one: told by the number of its fields and by the first.
pub fn parse(bytes: &[u8]) -> Option<Line<'_>>
    ensures { Recognized bytes.now result }
{
    if let Some(block) = heading(bytes) {
        return Some(Line::Heading(block));
    }
    let (first, rest) = cut(bytes, b' ')?;
    let Some((second, third)) = cut(rest, b' ') else {
        return pair(first, rest);
    };
    match side(first) {
        None => field(first, second, third),
        Some(side) => match cut(third, b' ') {
            None => state(side, second, third),
            Some((target, rest)) => rule(side, second, target, rest),
        },
    }
}

// The first of the names that are parted by spaces, and the part with the others; none where there is no name.
pub fn first_name(children: &[u8]) -> Option<(&[u8], &[u8])>
    ensures { MatchOption result (children.now ≡ []) (λ p. (parted children.now ≡ p.0.now ∷ parted p.1.now) × (length p.1.now < length children.now)) }
{
    if children.is_empty() {
        return None;
    }
    Some(cut(children, b' ').unwrap_or((children, &children[..0])))
}
