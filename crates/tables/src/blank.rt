// What stands in the places of a table that are not taken yet.
ghost use Rattle.std.specs.Prelude.{◌≡◌, [], ◌∷◌};
ghost use Rattle.tables.specs.Tables.{state_of, symbol_of};

use crate::{State, Symbol};
use words::Name;

impl Default for Symbol {
    ghost is_default = { λ s. symbol_of s ≡ record { name = 97 ∷ []; rank = 0 } };

    fn default() -> Symbol {
        Symbol {
            name: Name::a(),
            rank: 0,
        }
    }
}

impl Default for State {
    ghost is_default = { λ s. state_of s ≡ record { name = 97 ∷ []; final = 0 } };

    fn default() -> State {
        State {
            name: Name::a(),
            weight: 0,
        }
    }
}
