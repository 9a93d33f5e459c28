// The kinds of lines. A function recognizes its kind from the fields that were cut off so far and the
// rest of the line; it answers for every line with these fields.
ghost use Rattle.std.specs.Prelude.{◌≡◌, ℕ, List, [], ◌∷◌, Decides, MatchOption};
ghost use Rattle.format.specs.Lines.{kind_fields, kind_fits, letter, opens, written};
ghost use Rattle.lines.specs.Fields.{Ends, Names, NamesNone, NoLetter, OpensNone};
ghost use Rattle.lines.specs.Recognized.{block_of, parted, side_of, Recognized};
ghost use Rattle.std.specs.List.{AllByRecursion};
ghost use Rattle.words.specs.Words.{spaced, Lacks};

use crate::line::{Block, Line};
use shapes::shape::Kind;
use side::Side;
use words::{cut, is_name, number};

// The most pair steps that a field has.
const MOST_STEPS: u32 = 2;

// The block that the line opens. An `Option`, here and below: a `TryFrom` would need an error that says nothing more.
pub(crate) fn heading(bytes: &[u8]) -> Option<Block>
    ensures { MatchOption result (OpensNone bytes.now) (λ b. written (opens (block_of b)) ≡ bytes.now) }
{
    match bytes {
        b"kind p steps" => Some(Block::Fields),
        b"u v" => Some(Block::Steps),
        b"symbol rank" => Some(Block::Symbols),
        b"side state final" => Some(Block::States),
        b"side symbol target weight children" => Some(Block::Rules),
        _ => None,
    }
}

// The side that the field names.
pub(crate) fn side(first: &[u8]) -> Option<Side>
    ensures { MatchOption result (NoLetter first.now) (λ d. letter (side_of d) ≡ first.now) }
{
    match first {
        b"A" => Some(Side::A),
        b"B" => Some(Side::B),
        _ => None,
    }
}

// The kind of field that two fields name: `prime` and a modulus, or `byte` and `-`.
fn kind(first: &[u8], second: &[u8]) -> Option<Kind>
    ensures { MatchOption result (NamesNone first.now second.now) (λ k. kind_fits k × (kind_fields k ≡ first.now ∷ second.now ∷ [])) }
{
    match (first, second) {
        (b"prime", p) => Some(Kind::Residues(number(p)?)),
        (b"byte", b"-") => Some(Kind::Bytes),
        _ => None,
    }
}

// Whether the bytes are one name or more, parted by one space.
fn are_names(part: &[u8]) -> bool
    ensures { Decides result (Names part.now) }
{
    part.split(|b| *b == b' ').all(|name| is_name(name))
}

// A line of two fields: a pair step, or a symbol and its rank.
pub(crate) fn pair<'a>(first: &'a [u8], second: &'a [u8]) -> Option<Line<'a>>
    requires fields { AllByRecursion (Lacks 32) (first.now ∷ second.now ∷ []) }
    requires none { OpensNone (spaced (first.now ∷ second.now ∷ [])) }
    ensures { Recognized (spaced (first.now ∷ second.now ∷ [])) result }
{
    let last = number(second)?;
    if let Some(u) = number(first) {
        return Some(Line::Step { u, v: last });
    }
    if is_name(first) {
        return Some(Line::Symbol {
            name: first,
            rank: last,
        });
    }
    None
}

// The kind of field and the number of its pair steps.
pub(crate) fn field<'a>(first: &'a [u8], second: &'a [u8], third: &'a [u8]) -> Option<Line<'a>>
    requires fields { AllByRecursion (Lacks 32) (first.now ∷ second.now ∷ []) }
    requires letter { NoLetter first.now }
    requires none { OpensNone (spaced (first.now ∷ second.now ∷ third.now ∷ [])) }
    ensures { Recognized (spaced (first.now ∷ second.now ∷ third.now ∷ [])) result }
{
    let kind = kind(first, second)?;
    let steps = number(third)?;
    if steps > MOST_STEPS {
        return None;
    }
    Some(Line::Field { kind, steps })
}

// A side, a state and its final weight.
pub(crate) fn state<'a>(side: Side, name: &'a [u8], third: &'a [u8]) -> Option<Line<'a>>
    requires { AllByRecursion (Lacks 32) (name.now ∷ third.now ∷ []) }
    ensures { Recognized (spaced (letter (side_of side) ∷ name.now ∷ third.now ∷ [])) result }
{
    if !is_name(name) {
        return None;
    }
    let weight = number(third)?;
    Some(Line::State { side, name, weight })
}

// The end of a rule's line: the weight, and the part that has the children.
fn ending(rest: &[u8]) -> Option<(u32, &[u8])>
    ensures { MatchOption result ((w : ℕ) (cs : List (List ℕ)) → Ends rest.now w cs → ⊥) (λ p. Ends rest.now p.0 (parted p.1.now)) }
{
    match cut(rest, b' ') {
        None => Some((number(rest)?, &rest[..0])),
        Some((last, children)) => {
            if !are_names(children) {
                return None;
            }
            Some((number(last)?, children))
        }
    }
}

// A side, a symbol, a target, a weight and the children.
pub(crate) fn rule<'a>(
    side: Side,
    symbol: &'a [u8],
    target: &'a [u8],
    rest: &'a [u8],
) -> Option<Line<'a>>
    requires { AllByRecursion (Lacks 32) (symbol.now ∷ target.now ∷ []) }
    ensures { Recognized (spaced (letter (side_of side) ∷ symbol.now ∷ target.now ∷ rest.now ∷ [])) result }
{
    if !is_name(symbol) || !is_name(target) {
        return None;
    }
    let (weight, children) = ending(rest)?;
    Some(Line::Rule {
        side,
        symbol,
        target,
        weight,
        children,
    })
}
