// The parts of a record.
ghost use Rattle.std.specs.Prelude.{◌≡◌, map};
ghost use Rattle.field.specs.Algebra.{Lawful};
ghost use Rattle.shapes.specs.Shapes.{ValidShape, algebra};
ghost use Rattle.format.specs.Records.{field_of, part};
ghost use Rattle.lines.specs.Recognized.{side_of};
ghost use Rattle.rules.specs.Rules.{rule_model};
ghost use Rattle.tables.specs.Tables.{state_of, symbol_of};
ghost use Rattle.text.specs.Exchange.{declared};

use crate::record::Record;
use lines::Side;
use rules::Rule;
use shapes::shape::Shape;
use tables::{State, Symbol};

impl Record {
    // The field.
    pub fn field(&self) -> Shape
        ensures is { algebra result ≡ field_of (declared self.now) }
        ensures valid { ValidShape result }
        ensures lawful { Lawful (algebra result) }
    {
        *self.draft.field()
    }

    // The symbols, in order.
    pub fn symbols(&self) -> &[Symbol]
        ensures { map symbol_of result.now ≡ (declared self.now).symbols }
    {
        self.draft.symbols()
    }

    // The states of a side, in order.
    pub fn states(&self, side: Side) -> &[State]
        ensures { map state_of result.now ≡ (part (declared self.now) (side_of side)).states }
    {
        self.draft.part(side).states()
    }

    // The rules of a side, in order.
    pub fn rules(&self, side: Side) -> &[Rule]
        ensures { map rule_model result.now ≡ (part (declared self.now) (side_of side)).rules }
    {
        self.draft.part(side).rules()
    }
}
