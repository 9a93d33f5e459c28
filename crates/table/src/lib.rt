// At most N items in fixed memory.
#![tactic(auto)]

ghost use Rattle.refusals.specs.declared.Refusal.TheVariants.{TableFull};
ghost use Rattle.std.specs.Prelude.{◌≡◌, ◌≤◌, length, ⊤};

use refusals::Refusal;
use std::alloc::AllocError;

mod items;

// An array whose first `count` entries are its items. It has no model and is not the kit's `ArrayVec`, since neither would be
// `Copy`, as the tables of an automaton are.
pub struct Table<T, const N: usize> {
    entries: [T; N],
    count: usize,
    ghost width: { length entries ≡ N },
    ghost few: { count ≤ N },
}

// There is no room for one item more.
#[derive(Clone, Copy, Debug, PartialEq, Eq)]
pub struct Full;

impl From<Full> for Refusal {
    ghost from_gives = { λ _ r. r ≡ TableFull };

    fn from(_: Full) -> Refusal {
        Refusal::TableFull
    }
}

impl<T: Copy, const N: usize> Clone for Table<T, N> {
    ghost is_clone = { λ x y. y ≡ x };

    ghost is_infallible = { λ _. ⊤ };

    fn clone(&self) -> Result<Table<T, N>, AllocError> {
        Ok(*self)
    }
}

impl<T: Copy, const N: usize> Copy for Table<T, N> {}
