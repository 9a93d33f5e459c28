// An invariant in the type of a struct that is generic over a field: a value of zero size that holds the proof.
// A plain ghost field takes only a fact of which there is one proof at most, as `engine` has one; the invariant of a model takes
// any. A struct that keeps a `Holds` beside its state needs no `requires` on its methods.
#![tactic(auto)]

ghost use Rattle.field.specs.Algebra.{Algebra, Lawful};
ghost use Rattle.std.specs.Prelude.{◌≡◌};

use field::Field;
use std::marker::Model;
use std::snapshot::Snapshot;

// What a state says of itself over an algebra.
pub trait Invariant {
    ghost well: { Algebra → Self → Type 0 };
}

// The state keeps its invariant over the field's algebra.
#[derive(Drop)]
pub struct Holds<F: Field, T: Invariant> {
    field: Snapshot<F>,
    of: Snapshot<T>,
}

impl<F: Field, T: Invariant> Model for Holds<F, T> {
    ghost use Rattle.evidence.specs.About.{About};

    ghost Value = { About F T };

    ghost view = { λ h. record { field = h.field.value; of = h.of.value } };

    ghost invariant = { λ h. T.Invariant.well (F.Field.model h.field.value) h.of.value };
}

impl<F: Field, T: Invariant> Holds<F, T> {
    // The token of a field and a state of which the fact is at hand.
    pub fn new(f: &F, t: &T) -> Holds<F, T>
        requires well { T.Invariant.well (F.Field.model f.now) t.now }
        ensures field { result.field ≡ f.now }
        ensures of { result.of ≡ t.now }
    {
        Holds {
            field: Snapshot::of(f),
            of: Snapshot::of(t),
        }
    }

    // Gives the fact back; at run time it does nothing.
    pub fn known(&self)
        ensures lawful { Lawful (F.Field.model self.now.field) }
        ensures well { T.Invariant.well (F.Field.model self.now.field) self.now.of }
    {
        let _ = &self.field;
    }
}
