// What both automata of a comparison are over.
ghost use Rattle.std.proofs.Props.{props};
ghost use Rattle.std.specs.List.{AllByRecursion};
ghost use Rattle.std.specs.Prelude.{◌≤◌};
ghost use Rattle.table.specs.Items.{items_of};

use table::Table;

// A field, and the symbols by their ranks.
#[derive(Drop)]
pub struct Setting<F> {
    pub(crate) field: F,
    pub(crate) ranks: Table<u32, 12>,
    ghost small: { AllByRecursion (λ k. k ≤ 3) (items_of ranks) } by { Prim.hlevel props },
}
