// The operations of any field, by what they give.
ghost use Rattle.std.specs.Prelude.{◌<◌};
ghost use Rattle.worked.specs.Operations.{Gives};

use super::rows::Op;
use field::{Field, divide};

// The operation's result at two codes of the field. An operation is data here, since one list of rows serves fields of every
// type, and a closure would be bound to one.
pub fn perform<F: Field>(f: &F, op: Op, a: u32, b: u32) -> Option<u32>
    requires { (a < (F.Field.model f.now).size) × (b < (F.Field.model f.now).size) }
    ensures { Gives (F.Field.model f.now) op a b result }
{
    match op {
        Op::Add => Some(f.add(a, b)),
        Op::Mul => Some(f.mul(a, b)),
        Op::Neg => Some(f.neg(a)),
        Op::Inv => f.inv(a),
        Op::Div => divide(f, a, b),
    }
}
