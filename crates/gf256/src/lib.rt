// GF(256) as in FIPS 197: an element is a polynomial of degree below 8 over the field of two elements, and its code has
// bit i for the coefficient of the i-th power. Products are taken modulo x^8 + x^4 + x^3 + x + 1, through logarithms to
// the base 3.
#![tactic(auto)]

ghost use Rattle.std.specs.Prelude.{◌≡◌, ◌<◌, MatchOption, IsTrue};
ghost use Rattle.field.specs.Algebra.{ops};
ghost use Rattle.field.specs.Ops.{power};
ghost use Rattle.polynomials.specs.Polynomials.{gf256};
ghost use Rattle.polynomials.specs.Tables.{Generated, InverseTables};
ghost use Rattle.polynomials.proofs.Laws;

use field::Field;

mod tables;

use tables::{LOGARITHMS, POWERS};

#[derive(Clone, Copy)]
pub struct Byte;

// The table of powers and the table of logarithms.
pub fn both_tables() -> ([u8; 255], [u8; 256])
    ensures generated { Generated result.0 }
    ensures inverse { InverseTables result.0 result.1 }
{
    (POWERS, LOGARITHMS)
}

// 3 to the i.
pub fn power(i: u8) -> u8
    requires { i < 255 }
    ensures { result ≡ power (ops gf256) 3 i }
{
    POWERS[i as usize]
}

// The i for which 3 to the i is x; zero has none.
pub fn logarithm(x: u8) -> Option<u8>
    ensures { MatchOption result (x ≡ 0) (λ i. (0 < x) × (i < 255) × (power (ops gf256) 3 i ≡ x)) }
{
    if x == 0 {
        None
    } else {
        Some(LOGARITHMS[x as usize])
    }
}

// 3 to the n. The powers go round: 3 to the 255 is one.
fn cyclic_power(n: u32) -> u32
    requires { n < 510 }
    ensures value { result ≡ power (ops gf256) 3 n }
    ensures below { result < 256 }
{
    let i = if n < 255 { n } else { n - 255 };
    power(i as u8) as u32
}

impl Field for Byte {
    ghost model = { λ _. gf256 };

    ghost laws = { λ f. Laws.field };

    fn size(&self) -> u64 {
        256
    }

    fn add(&self, a: u32, b: u32) -> u32 {
        a ^ b
    }

    fn mul(&self, a: u32, b: u32) -> u32 {
        let Some(i) = logarithm(a as u8) else {
            return 0;
        };
        let Some(j) = logarithm(b as u8) else {
            return 0;
        };
        cyclic_power(i as u32 + j as u32)
    }

    fn neg(&self, a: u32) -> u32 {
        a
    }

    fn inv(&self, a: u32) -> Option<u32> {
        let i = logarithm(a as u8)?;
        Some(cyclic_power(255 - i as u32))
    }

    // There is only one.
    fn is_same(&self, _: &Byte) -> bool
        ensures { IsTrue result }
    {
        true
    }
}
