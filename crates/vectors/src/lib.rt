// A table of vectors of codes, at most 64 of at most 12 elements each.
#![tactic(auto)]

ghost use Rattle.std.specs.Prelude.{◌≡◌, ◌≤◌, length};
ghost use Rattle.std.specs.List.{AllByRecursion, AllByRecursion-prop};
ghost use Rattle.std.proofs.Math.Nat.{ℕ_set};
ghost use Rattle.table.specs.Items.{items_of};

use table::Table;

mod calls;

// Vectors of so many elements each, in the first places of the rows: one width for all, in fixed memory.
#[derive(Clone, Copy)]
pub struct Vectors {
    rows: Table<[u32; 12], 64>,
    width: usize,
    ghost whole: { AllByRecursion (λ r. length r ≡ 12) (items_of rows) } by { AllByRecursion-prop _ (λ _. ℕ_set _ _) _ },
    ghost narrow: { width ≤ 12 },
}
