// Prime fields: the residues modulo a prime of a fixed list. That each of the list is prime is proved, and not assumed.
#![tactic(auto)]

ghost use Rattle.std.specs.Prelude.{◌≡◌, true, IsTrue, ◌↔◌};
ghost use Rattle.prime.specs.Moduli.{IsPrime, admitted};
ghost use Rattle.prime.specs.Residues.{residues};
ghost use Rattle.prime.specs.Inverses.{residue_field};
ghost use Rattle.prime.specs.Primality.{admitted_prime, admitted_fits};

use field::Field;

#[derive(Clone, Copy)]
pub struct Prime {
    modulus: u32,
    ghost listed: { admitted modulus ≡ true },
}

// Whether a prime field has this modulus.
pub fn is_listed(modulus: u32) -> bool
    ensures { result ≡ admitted modulus }
{
    match modulus {
        2 | 3 | 5 | 7 | 65521 | 4294967279 | 4294967291 => true,
        _ => false,
    }
}

impl Prime {
    pub fn new(modulus: u32) -> Prime
        requires { admitted modulus ≡ true }
        ensures value { result.modulus ≡ modulus }
        ensures prime { IsPrime result.modulus }
    {
        Prime { modulus }
    }

    pub fn modulus(&self) -> u32
        ensures { result ≡ self.now.modulus }
    {
        self.modulus
    }
}

impl Field for Prime {
    ghost model = { λ f. residues f.modulus };

    ghost laws = { λ f. residue_field f.modulus (admitted_prime _ f.listed) (admitted_fits _ f.listed) };

    fn size(&self) -> u64 {
        u64::from(self.modulus)
    }

    // By comparison with the distance from b to the modulus, so that no sum passes 32 bits.
    fn add(&self, a: u32, b: u32) -> u32 {
        let gap = self.modulus - b;
        if a < gap { a + b } else { a - gap }
    }

    fn mul(&self, a: u32, b: u32) -> u32 {
        ((a as u64) * (b as u64) % (self.modulus as u64)) as u32
    }

    fn neg(&self, a: u32) -> u32 {
        if a == 0 { 0 } else { self.modulus - a }
    }

    // m * a is x modulo p in every turn. Since p = (p / x) * x + p % x, the factor p - p / x takes x to p % x, which is
    // less than x, and not zero as p is prime.
    fn inv(&self, a: u32) -> Option<u32> {
        if a == 0 {
            return None;
        }
        let p = self.modulus;
        let mut x = a;
        let mut m = 1;
        while x != 1 {
            m = self.mul(m, p - p / x);
            x = p % x;
        }
        Some(m)
    }

    fn is_same(&self, other: &Prime) -> bool
        ensures { IsTrue result ↔ (other.now.modulus ≡ self.now.modulus) }
    {
        other.modulus == self.modulus
    }
}
