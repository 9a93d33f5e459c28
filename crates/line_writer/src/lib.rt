// The lines of a text, each written by a pen.
#![tactic(auto)]

ghost use Rattle.std.specs.Prelude.{◌≡◌, ◌+◌, ◌*◌, ◌≤◌, [], ◌∷◌, ◌++◌, map, length, decimal};
ghost use Rattle.format.specs.Lines.{extends_by, letter, names_field};
ghost use Rattle.line_writer.specs.Writing.{after_space, ended, named, rule_line, state_line, symbol_line};
ghost use Rattle.lines.specs.Recognized.{side_of};
ghost use Rattle.std.specs.List.{flat_map};
ghost use Rattle.words.specs.Puts.{Writes};

use lines::Side;
use rules::Rule;
use shapes::shape::Kind;
use tables::{Named, State, Symbol};
use words::Pen;

// The last field of a line, a number: a space, the number and the line feed.
fn put_last(pen: &mut Pen<'_>, n: u32)
    ensures writes { Writes pen.old (32 ∷ (decimal n ++ (10 ∷ []))) pen.new }
    ensures near { pen.new.at ≤ pen.old.at + 12 }
{
    pen.byte(b' ');
    pen.number(n);
    pen.byte(b'\n'); // the end of the line
}

// The kind of field and the number of its extensions.
pub fn put_kind(pen: &mut Pen<'_>, kind: Kind, count: u32)
    ensures writes { Writes pen.old (ended (names_field kind count)) pen.new }
    ensures near { pen.new.at ≤ pen.old.at + 28 }
{
    match kind {
        Kind::Residues(p) => {
            pen.bytes(b"prime ");
            pen.number(p);
        }
        Kind::Bytes => pen.bytes(b"byte -"),
    }
    put_last(pen, count);
}

// The coefficients of an extension.
pub fn put_step(pen: &mut Pen<'_>, u: u32, v: u32)
    ensures writes { Writes pen.old (ended (extends_by u v)) pen.new }
    ensures near { pen.new.at ≤ pen.old.at + 22 }
{
    pen.number(u);
    put_last(pen, v);
}

// A symbol and its rank.
pub fn put_symbol(pen: &mut Pen<'_>, symbol: &Symbol)
    ensures writes { Writes pen.old (ended (symbol_line symbol.now)) pen.new }
    ensures near { pen.new.at ≤ pen.old.at + 20 }
{
    pen.name(&symbol.name);
    put_last(pen, symbol.rank);
}

// The letter of a side.
fn letter_of(side: Side) -> u8
    ensures { (result ∷ []) ≡ letter (side_of side) }
{
    match side {
        Side::A => b'A',
        Side::B => b'B',
    }
}

// A state of a side and its final weight.
pub fn put_state(pen: &mut Pen<'_>, side: Side, state: &State)
    ensures writes { Writes pen.old (ended (state_line (side_of side) state.now)) pen.new }
    ensures near { pen.new.at ≤ pen.old.at + 22 }
{
    pen.byte(letter_of(side));
    pen.byte(b' ');
    pen.name(&state.name);
    put_last(pen, state.weight);
}

// A space and the name of the item with this number.
fn put_name<T: Named>(pen: &mut Pen<'_>, items: &[T], number: u32)
    ensures writes { Writes pen.old (after_space (named (map T.called items.now) number)) pen.new }
    ensures near { pen.new.at ≤ pen.old.at + 9 }
{
    pen.byte(b' ');
    if let Some(item) = items.get(number.saturating_sub(1) as usize) {
        pen.name(item.name());
    }
}

// A space and a name for each of the numbers.
fn put_names<T: Named>(pen: &mut Pen<'_>, items: &[T], numbers: &[u32])
    ensures writes { Writes pen.old (flat_map after_space (map (named (map T.called items.now)) numbers.now)) pen.new }
    ensures near { pen.new.at ≤ pen.old.at + 9 * length numbers.now }
{
    for k in numbers {
        put_name(pen, items, *k);
    }
}

// A rule of a side: its symbol, its target, its weight and its child states.
pub fn put_rule(pen: &mut Pen<'_>, side: Side, symbols: &[Symbol], states: &[State], rule: &Rule)
    ensures writes { Writes pen.old (ended (rule_line (side_of side) symbols.now states.now rule.now)) pen.new }
    ensures near { pen.new.at ≤ pen.old.at + 58 }
{
    pen.byte(letter_of(side));
    put_name(pen, symbols, rule.symbol);
    put_name(pen, states, rule.target);
    pen.byte(b' '); // before the weight
    pen.number(rule.weight);
    put_names(pen, states, rule.children.items());
    pen.byte(b'\n');
}
