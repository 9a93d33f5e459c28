// The text format: its lines, its records and its faults, and what makes it exact. A function here computes nothing: its
// contract is a theorem over the definitions of specs/.
#![tactic(auto)]

ghost use Rattle.format.specs.Theorems.{AcceptedIsItsText, TextIsAccepted, AcceptedAsOne, NeverBoth, OneFault};

// An accepted text is that of the record it is accepted as, byte for byte.
pub fn accepted_is_its_text()
    ensures { AcceptedIsItsText }
{}

// Every record's text is accepted as that record.
pub fn text_is_accepted()
    ensures { TextIsAccepted }
{}

// A text is accepted as one record at most.
pub fn accepted_as_one()
    ensures { AcceptedAsOne }
{}

// An accepted text has no fault.
pub fn never_both()
    ensures { NeverBoth }
{}

// A text has one fault at most, on one line.
pub fn one_fault()
    ensures { OneFault }
{}
