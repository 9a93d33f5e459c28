// What a text says of a shape: its kind, and the coefficients of its extensions.
ghost use Rattle.shapes.specs.Shapes.{shape_kind, steps};
ghost use Rattle.std.specs.Prelude.{◌≡◌};
ghost use Rattle.table.specs.Items.{items_of};

use crate::shape::{Kind, Shape};
use table::Table;

impl Shape {
    // The kind that it begins with.
    pub fn kind(&self) -> Kind
        ensures { result ≡ shape_kind self.now }
    {
        match self {
            Shape::Prime(f) => Kind::Residues(f.modulus()),
            Shape::PrimePair(f) => Kind::Residues(f.base().modulus()),
            Shape::PrimeTower(f) => Kind::Residues(f.base().base().modulus()),
            Shape::Byte(_) | Shape::BytePair(_) | Shape::ByteTower(_) => Kind::Bytes,
        }
    }

    // The coefficients u and v of its extensions, the first over the kind.
    pub fn steps(&self) -> Table<(u32, u32), 2>
        ensures { items_of result ≡ steps self.now }
    {
        match self {
            Shape::Prime(_) | Shape::Byte(_) => Table::new(),
            Shape::PrimePair(f) => Table::from_slice(&[f.coefficients()]),
            Shape::BytePair(f) => Table::from_slice(&[f.coefficients()]),
            Shape::PrimeTower(f) => Table::from_slice(&[f.base().coefficients(), f.coefficients()]),
            Shape::ByteTower(f) => Table::from_slice(&[f.base().coefficients(), f.coefficients()]),
        }
    }
}
