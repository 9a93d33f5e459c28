// The theory of the quadratic extension of a field. The functions of this file
// compute nothing: the contract of each is a theorem over the definitions of specs/.
#![tactic(auto)]

ghost use Rattle.extension.specs.Theorems.{ExtensionIsLawful, NormGivesInverse, ExtendsByTest};

// The extension of a lawful field by a root that it lacks keeps the laws of a field.
pub fn extension_is_lawful()
    ensures { ExtensionIsLawful }
{}

// Its inverse is the conjugate times the inverse of the norm.
pub fn norm_gives_inverse()
    ensures { NormGivesInverse }
{}

// Whether u and v extend a base is told by a test of each of its elements.
pub fn extends_by_test()
    ensures { ExtendsByTest }
{}
