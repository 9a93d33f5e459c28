// How many there are so far, for the lines that may follow.
ghost use Rattle.std.specs.Prelude.{◌≡◌, length};
ghost use Rattle.drafts.specs.Drafts.{extensions, rules_of, states_of, side_part};
ghost use Rattle.tables.specs.Tables.{symbols_of};

use crate::Draft;
use lines::Side;

impl Draft {
    // The extensions made.
    pub fn extended(&self) -> u32
        ensures { result ≡ length (extensions self.now) }
    {
        self.field.steps().len() as u32
    }

    // The extensions announced.
    pub fn announced(&self) -> u32
        ensures { result ≡ self.now.announced }
    {
        self.announced
    }

    pub fn symbol_count(&self) -> usize
        ensures { result ≡ length (symbols_of self.now.symbols) }
    {
        self.symbols.len()
    }

    pub fn state_count(&self, side: Side) -> usize
        ensures { result ≡ length (states_of (side_part self.now side)) }
    {
        self.part(side).states.len()
    }

    pub fn rule_count(&self, side: Side) -> usize
        ensures { result ≡ length (rules_of (side_part self.now side)) }
    {
        self.part(side).rules.len()
    }
}
