// Polynomials over the field of two elements, and GF(256) as their residues: the theory. A function here computes nothing:
// its contract is a theorem over the definitions of specs/.
#![tactic(auto)]

ghost use Rattle.polynomials.specs.Theorems.{Gf256IsLawful, ThreeGenerates};

// GF(256) keeps the laws of a field.
pub fn gf256_is_lawful()
    ensures { Gf256IsLawful }
{}

// Every element but zero is a power of 3.
pub fn three_generates()
    ensures { ThreeGenerates }
{}
