// Finite fields as values behind one interface. An element is carried as its code, a whole number below the field's
// size; code 0 is zero and code 1 is one.
#![tactic(auto)]

ghost use Rattle.std.specs.Prelude.{◌≡◌, ◌<◌, IfSome, IsTrue};
ghost use Rattle.field.specs.Algebra.{Algebra, Lawful, inverse, Quotient};

// Every value of a type that implements it is a field. That codes are below the size is asked by each operation: it depends on the
// field's value, and no type does.
pub trait Field {
    // The size, and sum, product and negative of codes.
    ghost model: { Self → Algebra };

    // The number of elements.
    fn size(&self) -> u64
        ensures { result ≡ (model self.now).size };

    fn add(&self, a: u32, b: u32) -> u32
        requires { (a < (model self.now).size) × (b < (model self.now).size) }
        ensures value { result ≡ (model self.now).sum a b }
        ensures below { result < (model self.now).size };

    fn mul(&self, a: u32, b: u32) -> u32
        requires { (a < (model self.now).size) × (b < (model self.now).size) }
        ensures value { result ≡ (model self.now).prod a b }
        ensures below { result < (model self.now).size };

    fn neg(&self, a: u32) -> u32
        requires { a < (model self.now).size }
        ensures value { result ≡ (model self.now).opp a }
        ensures below { result < (model self.now).size };

    // The element whose product with a is one; zero has none.
    fn inv(&self, a: u32) -> Option<u32>
        requires { a < (model self.now).size }
        ensures value { result ≡ inverse (model self.now) a }
        ensures below { IfSome result (λ b. b < (model self.now).size) };

    // Whether it can be told at once that another value is the same field. False says nothing, and a field that has no quick way to tell
    // leaves it at that.
    fn is_same(&self, other: &Self) -> bool
        ensures { IsTrue result → model other.now ≡ model self.now }
    {
        false
    }

    ghost laws: { (f : Self) → Lawful (model f) };
}

// a divided by b, in any field.
pub fn divide<F: Field>(f: &F, a: u32, b: u32) -> Option<u32>
    requires { (a < (F.Field.model f.now).size) × (b < (F.Field.model f.now).size) }
    ensures { Quotient (F.Field.model f.now) a b result }
{
    Some(f.mul(a, f.inv(b)?))
}
