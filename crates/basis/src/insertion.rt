// The calls of a basis.
ghost use Rattle.std.specs.Prelude.{◌≤◌, []};
ghost use Rattle.basis.specs.Bases.{BasisFor, Insertable, Inserts};
ghost use Rattle.field.specs.Algebra.{Algebra};

use crate::Basis;
use elimination::Row;
use elimination::clearing::reduce;
use elimination::normalizing::normalize;
use field::Field;
use table::Table;

impl Basis {
    // The basis of no vector, for vectors of `width` places.
    pub fn empty(width: usize) -> Basis
        requires { width ≤ 24 }
        ensures { (A : Algebra) → BasisFor A width [] result }
    {
        let blank = Row {
            pivot: 0,
            codes: [0; 24],
        };
        Basis {
            rows: Table::filled(blank, 0),
            width,
        }
    }

    // Keeps the vector exactly where it is no sum of multiples of those kept before, and says whether it did: a plain answer, as
    // a set's `insert` gives, and no failure.
    pub fn insert<F: Field>(&mut self, f: &F, vector: &[u32]) -> bool
        requires fits { Insertable (F.Field.model f.now) self.old vector.now }
        ensures { Inserts (F.Field.model f.now) self.old vector.now result self.new }
    {
        let mut codes = [0; 24];
        let rest = &mut codes[..self.width];
        rest.copy_from_slice(vector);
        reduce(f, self.rows.items(), rest);
        let Some(pivot) = normalize(f, rest) else {
            return false;
        };
        self.rows.push(Row { pivot, codes }).unwrap();
        true
    }
}
