// A shape as a field.
ghost use Rattle.shapes.specs.Shapes.{algebra};
ghost use Rattle.shapes.specs.Laws.{shape_lawful};

use crate::shape::Shape;
use field::Field;

// What is done with the field that a shape is, whichever of the six it is.
macro_rules! of_each {
    ($shape:expr, $f:ident => $done:expr) => {
        match $shape {
            Shape::Prime($f) => $done,
            Shape::Byte($f) => $done,
            Shape::PrimePair($f) => $done,
            Shape::BytePair($f) => $done,
            Shape::PrimeTower($f) => $done,
            Shape::ByteTower($f) => $done,
        }
    };
}

impl Field for Shape {
    ghost model = { algebra };

    ghost laws = { shape_lawful };

    fn size(&self) -> u64 {
        of_each!(self, f => f.size())
    }

    fn add(&self, a: u32, b: u32) -> u32 {
        of_each!(self, f => f.add(a, b))
    }

    fn mul(&self, a: u32, b: u32) -> u32 {
        of_each!(self, f => f.mul(a, b))
    }

    fn neg(&self, a: u32) -> u32 {
        of_each!(self, f => f.neg(a))
    }

    fn inv(&self, a: u32) -> Option<u32> {
        of_each!(self, f => f.inv(a))
    }

    // The same one of the six, over the same field.
    fn is_same(&self, other: &Shape) -> bool {
        match (self, other) {
            (Shape::Prime(f), Shape::Prime(g)) => f.is_same(g),
            (Shape::Byte(f), Shape::Byte(g)) => f.is_same(g),
            (Shape::PrimePair(f), Shape::PrimePair(g)) => f.is_same(g),
            (Shape::BytePair(f), Shape::BytePair(g)) => f.is_same(g),
            (Shape::PrimeTower(f), Shape::PrimeTower(g)) => f.is_same(g),
            (Shape::ByteTower(f), Shape::ByteTower(g)) => f.is_same(g),
            _ => false,
        }
    }
}
