// Making a row of what is left of a vector.
ghost use Rattle.std.specs.Prelude.{◌≡◌, ◌<◌, length};
ghost use Rattle.elimination.specs.Vectors.{scaled_by, Leads, Normalized};
ghost use Rattle.field.specs.Codes.{AllBelow};

use field::Field;

// The first place where v is not zero.
pub fn leading(v: &[u32]) -> Option<usize>
    ensures { Leads v.now result }
{
    v.iter().position(|c| *c != 0)
}

// Multiplies v by c.
pub fn scale<F: Field>(f: &F, c: u32, v: &mut [u32])
    requires code { c < (F.Field.model f.now).size }
    requires codes { AllBelow (F.Field.model f.now).size v.old }
    ensures { v.new ≡ scaled_by (F.Field.model f.now) (length v.old) c v.old }
{
    for x in v.iter_mut() {
        *x = f.mul(c, *x);
    }
}

// Scales v so that it is one at its first place that is not zero, which is the result.
pub fn normalize<F: Field>(f: &F, v: &mut [u32]) -> Option<usize>
    requires codes { AllBelow (F.Field.model f.now).size v.old }
    ensures { Normalized (F.Field.model f.now) v.old result v.new }
{
    let pivot = leading(v)?;
    let inverse = f.inv(v[pivot]).unwrap();
    scale(f, inverse, v);
    Some(pivot)
}
