// The children of a rule while its line is read.
ghost use Rattle.std.specs.Prelude.{◌≡◌, ℕ, ◌≤◌, List, [], ◌∷◌, ◌++◌, map, length, take, Some, MatchOption};
ghost use Rattle.table.specs.Items.{items_of};
ghost use Rattle.tables.specs.Tables.{children_of};

use table::Table;

// The number of each child, or none where it is not declared. Of more than four the first four are kept: no rank is four.
#[derive(Clone, Copy)]
pub struct Children {
    numbers: Table<Option<u32>, 4>,
}

impl Children {
    pub fn none() -> Children
        ensures { children_of result ≡ [] }
    {
        Children {
            numbers: Table::new(),
        }
    }

    // One child more.
    pub fn and(mut self, number: Option<u32>) -> Children
        ensures { children_of result ≡ take 4 (children_of self ++ (number ∷ [])) }
    {
        let _ = self.numbers.push(number);
        self
    }

    // How many are kept.
    pub fn count(&self) -> usize
        ensures is { result ≡ length (children_of self.now) }
        ensures few { result ≤ 4 }
    {
        self.numbers.len()
    }

    // The numbers of at most three children, where each is declared.
    pub fn declared(&self) -> Option<Table<u32, 3>>
        requires { length (children_of self.now) ≤ 3 }
        ensures { MatchOption result ((ns : List ℕ) → children_of self.now ≡ map Some ns → ⊥) (λ t. children_of self.now ≡ map Some (items_of t)) }
    {
        let mut numbers = Table::new();
        for number in self.numbers.items() {
            numbers.push((*number)?).unwrap();
        }
        Some(numbers)
    }
}
