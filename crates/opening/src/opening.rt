// A comparison from a record. State k of a side is the one that its k-th line declares, and symbol k the k-th symbol.
ghost use Rattle.comparison.specs.Comparisons.{count_a, count_b, field_of as field_in, session};
ghost use Rattle.format.specs.Records.{field_of, sides};
ghost use Rattle.session.specs.declared.Phase.TheVariants.{Open};
ghost use Rattle.shapes.specs.Shapes.{algebra};
ghost use Rattle.text.specs.Exchange.{declared};
ghost use Rattle.std.specs.Prelude.{◌≡◌, length};

use crate::opened::Opened;
use comparison::{Comparison, Counts};
use field::Field;
use shapes::shape::Shape;
use side::Side;
use text::Record;

// How many states each side has.
fn counts_of(source: &Record) -> Counts
    ensures a { count_a result ≡ length (declared source.now).a.states }
    ensures b { count_b result ≡ length (declared source.now).b.states }
{
    let a = source.states(Side::A).len() as u32;
    let b = source.states(Side::B).len() as u32;
    Counts::new(a, b).unwrap()
}

// The record's comparison over its field, in the form that the caller chose for it.
pub fn open<F: Field>(field: F, source: &Record) -> Comparison<F>
    requires { F.Field.model field ≡ field_of (declared source.now) }
    ensures holds { session result ≡ record { phase = Open; sides = sides (declared source.now) } }
    ensures field { field_in result ≡ field }
{
    let mut opened = Opened {
        comparison: Comparison::begin(field, counts_of(source)),
    };
    opened.give_symbols(source.symbols());
    opened.give_side(Side::A, source.states(Side::A), source.rules(Side::A));
    opened.give_side(Side::B, source.states(Side::B), source.rules(Side::B));
    opened.comparison
}

// The same over the field as the record holds it.
pub fn of_record(source: &Record) -> Comparison<Shape>
    ensures holds { session result ≡ record { phase = Open; sides = sides (declared source.now) } }
    ensures field { algebra (field_in result) ≡ field_of (declared source.now) }
{
    open(source.field(), source)
}
