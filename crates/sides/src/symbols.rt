// The symbols of a setting.
ghost use Rattle.session.specs.Calls.{IfRefused};
ghost use Rattle.sides.specs.Sides.{Declares};
ghost use Rattle.std.specs.Prelude.{◌≡◌, []};
ghost use Rattle.table.specs.Items.{items_of};

use crate::setting::Setting;
use refusals::Refusal;
use table::Table;

impl<F> Setting<F> {
    // No symbol yet.
    pub fn new(field: F) -> Setting<F>
        ensures field { result.field ≡ field }
        ensures ranks { items_of result.ranks ≡ [] }
    {
        Setting {
            field,
            ranks: Table::new(),
        }
    }

    // Declares a symbol of the rank, and gives its number.
    pub fn add_symbol(&mut self, rank: u32) -> Result<u32, Refusal>
        ensures does { Declares (items_of self.old.ranks) rank result (items_of self.new.ranks) }
        ensures field { self.new.field ≡ self.old.field }
        ensures same { IfRefused result (self.new ≡ self.old) }
    {
        if rank > 3 {
            return Err(Refusal::RankTooLarge);
        }
        self.ranks.push(rank)?;
        Ok(self.ranks.len() as u32)
    }
}
