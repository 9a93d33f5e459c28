// A pair of automata with their field and their names, as a text declares them.
ghost use Rattle.format.specs.Records.{ValidRecord};
ghost use Rattle.drafts.specs.Drafts.{record_of};

use drafts::Draft;

// What is declared is valid: the field keeps the laws, the limits are kept, names are well formed and distinct, weights are
// elements of the field, and rules are over declared symbols and states.
#[derive(Clone, Copy)]
pub struct Record {
    pub(crate) draft: Draft,
    ghost valid: { ∥ ValidRecord (record_of draft) ∥₁ },
}
