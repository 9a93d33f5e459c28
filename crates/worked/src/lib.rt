// Worked cases as theorems: the definitions give the values that they must, and so does the code.
#![tactic(auto)]

ghost use Rattle.std.specs.Prelude.{◌≡◌, map};
ghost use Rattle.worked.specs.Table.{arithmetic, AllAsExpected};

use field::Field;
use gf256::Byte;
use prime::Prime;
use quadratic::Pair;

pub mod perform;
pub mod rows;

// The table's arithmetic, computed: 87 × 131 and the inverse of 83 in GF(256), and 3 × 3 and the inverse of 4 in the
// extension of the residues modulo 3 by a root of X² − 2.
pub fn worked_arithmetic() -> [Option<u32>; 4]
    ensures defined { AllAsExpected arithmetic }
    ensures computed { result ≡ map (λ row. row.expected) arithmetic }
{
    let nine = Pair::new(Prime::new(3), 0, 2);
    [
        Some(Byte.mul(87, 131)),
        Byte.inv(83),
        Some(nine.mul(3, 3)),
        nine.inv(4),
    ]
}
