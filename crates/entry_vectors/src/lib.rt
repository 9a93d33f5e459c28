// The values of a list of entries, worked out entry by entry over any field. A sum or a product of a list is taken from its
// end, as its definition reads.
#![tactic(auto)]

ghost use Rattle.automaton.specs.Tables.{automaton_of};
ghost use Rattle.equivalence.specs.Automata.{Sound, states as many};
ghost use Rattle.field.specs.Codes.{Codes};
ghost use Rattle.vectors.specs.Tables.{vectors_of, width_of};
ghost use Rattle.std.specs.Prelude.{◌≡◌};
ghost use Rattle.entry_vectors.specs.Facts.{Codes-prop, Sound-prop};

use automaton::Automaton;
use field::Field;
use vectors::Vectors;

mod entry;
mod product;
mod value;

pub use entry::entry_vector;

// The vectors of some entries, in an automaton over a field.
#[derive(Drop)]
pub struct Valuation<'a, F: Field> {
    field: &'a F,
    automaton: &'a Automaton,
    vectors: Vectors,
    ghost sound: { Sound (F.Field.model field.now).size (automaton_of automaton.now) } by { Sound-prop _ _ },
    ghost codes: { Codes (F.Field.model field.now).size (vectors_of vectors) } by { Codes-prop _ _ },
    ghost wide: { width_of vectors ≡ many (automaton_of automaton.now) },
}
