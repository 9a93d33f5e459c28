// The mathematics under the comparer: trees, values and the exploration, with the theorems that make the answer exact.
// A function here computes nothing: its contract is a theorem over the definitions of specs/.
#![tactic(auto)]

ghost use Rattle.equivalence.specs.Theorems.{EqualIsExact, DiffersIsExactAndLowest, VerdictIsExact, AlwaysBounded, ValuesOfEntries};

// An exploration that ends with equal proves the automata equivalent.
pub fn equal_is_exact()
    ensures { EqualIsExact }
{}

// One that ends with differs shows a lowest tree that tells them apart.
pub fn differs_is_exact_and_lowest()
    ensures { DiffersIsExactAndLowest }
{}

pub fn verdict_is_exact()
    ensures { VerdictIsExact }
{}

pub fn always_bounded()
    ensures { AlwaysBounded }
{}

// A value worked out entry by entry depends on the tree alone.
pub fn values_of_entries()
    ensures { ValuesOfEntries }
{}
