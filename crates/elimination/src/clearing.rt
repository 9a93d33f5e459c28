// Clearing a vector by rows. These are functions of a field and a slice: as methods of a struct of both, each would have to say
// that the field stays, in place of what it says of the codes, and would be no plainer.
ghost use Rattle.std.specs.Prelude.{◌≡◌, ◌<◌, ◌≤◌, map, length};
ghost use Rattle.elimination.specs.Rows.{Clears, row_of};
ghost use Rattle.elimination.specs.Vectors.{VectorOver, cleared_by, reduced_by};
ghost use Rattle.field.specs.Codes.{AllBelow};
ghost use Rattle.std.specs.List.{AllByRecursion};

use crate::Row;
use field::Field;

// Takes from v the multiple of a row that leaves zero at the row's pivot: nothing where it is zero already.
pub fn clear<F: Field>(f: &F, pivot: usize, row: &[u32], v: &mut [u32])
    requires place { pivot < length v.old }
    requires row { VectorOver (F.Field.model f.now) (length v.old) row.now }
    requires codes { AllBelow (F.Field.model f.now).size v.old }
    ensures codes { AllBelow (F.Field.model f.now).size v.new }
    ensures value { v.new ≡ cleared_by (F.Field.model f.now) (length v.old) v.old (pivot, row.now) }
{
    if v[pivot] == 0 {
        return;
    }
    let less = f.neg(v[pivot]);
    for (i, x) in v.iter_mut().enumerate() {
        *x = f.add(*x, f.mul(less, row[i]));
    }
}

// Clears v by each row, in order.
pub fn reduce<F: Field>(f: &F, rows: &[Row], v: &mut [u32])
    requires rows { AllByRecursion (Clears (F.Field.model f.now) (length v.old)) rows.now }
    requires codes { AllBelow (F.Field.model f.now).size v.old }
    requires narrow { length v.old ≤ 24 }
    ensures codes { AllBelow (F.Field.model f.now).size v.new }
    ensures value { v.new ≡ reduced_by (F.Field.model f.now) (length v.old) (map (row_of (length v.old)) rows.now) v.old }
{
    for row in rows {
        clear(f, row.pivot, &row.codes[..v.len()], v);
    }
}
