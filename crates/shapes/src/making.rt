// How shapes are made: from a kind, and by extensions.
ghost use Rattle.std.specs.Prelude.{◌≡◌, true, false, [], MatchOption};
ghost use Rattle.shapes.specs.Shapes.{shape_kind, steps, named, Extendable, Extended};

use crate::shape::{Kind, Shape};
use gf256::Byte;
use prime::{Prime, is_listed};
use quadratic::extend;

impl Shape {
    // The field of a kind, where it names one.
    pub fn of_kind(kind: Kind) -> Option<Shape>
        ensures { MatchOption result (named kind ≡ false) (λ s. (named kind ≡ true) × (shape_kind s ≡ kind) × (steps s ≡ [])) }
    {
        match kind {
            Kind::Residues(p) => {
                if !is_listed(p) {
                    return None;
                }
                Some(Shape::Prime(Prime::new(p)))
            }
            Kind::Bytes => Some(Shape::Byte(Byte)),
        }
    }

    // One quadratic extension more, where there can be one.
    pub fn extended(&self, u: u32, v: u32) -> Option<Shape>
        ensures { MatchOption result (Extendable self.now u v → ⊥) (λ s. Extendable self.now u v × Extended self.now u v s) }
    {
        Some(match *self {
            Shape::Prime(f) => Shape::PrimePair(extend(f, u, v)?),
            Shape::Byte(f) => Shape::BytePair(extend(f, u, v)?),
            Shape::PrimePair(f) => Shape::PrimeTower(extend(f, u, v)?),
            Shape::BytePair(f) => Shape::ByteTower(extend(f, u, v)?),
            Shape::PrimeTower(_) | Shape::ByteTower(_) => return None,
        })
    }
}
