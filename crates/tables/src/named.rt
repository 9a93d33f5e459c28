// Finding what has a name by its name.
ghost use Rattle.std.specs.Prelude.{◌≡◌, ℕ, ◌^◌, ◌<◌, List, map, length};
ghost use Rattle.tables.specs.Names.{Finds};
ghost use Rattle.words.specs.Spelled.{spelled};

use crate::{State, Symbol};
use words::Name;

pub trait Named {
    // The bytes of the name.
    ghost called: { Self → List ℕ };

    fn name(&self) -> &Name
        ensures { spelled result.now ≡ called self.now };
}

impl Named for Symbol {
    ghost called = { λ s. spelled s.name };

    fn name(&self) -> &Name {
        &self.name
    }
}

impl Named for State {
    ghost called = { λ s. spelled s.name };

    fn name(&self) -> &Name {
        &self.name
    }
}

// The number, from 1, of the first with the name, if there is one.
pub fn number_of<T: Named>(items: &[T], name: &[u8]) -> Option<u32>
    requires { length items.now < 2 ^ 32 }
    ensures { Finds (map T.called items.now) name.now result }
{
    let at = items.iter().position(|item| item.name().is(name))?;
    Some(at as u32 + 1)
}
