// Taking a line.
ghost use Rattle.format.specs.Lines.{Formed};
ghost use Rattle.std.specs.Prelude.{◌≡◌};
ghost use Rattle.format.specs.Reading.{MayFollow, blank};
ghost use Rattle.lines.specs.Recognized.{line_of, parted};
ghost use Rattle.drafts.specs.Drafts.{ChildrenAre};
ghost use Rattle.places.specs.Places.{place_of};
ghost use Rattle.reader.specs.Reads.{Took, TookBytes, meaning};

use crate::reader::Reader;
use drafts::Draft;
use lines::{Line, Side, first_name, parse};
use places::{Place, may_follow};
use refusals::Refusal;
use tables::Children;

// The children of a rule of a side, by their names, which are parted by spaces. A loop by what `first_name` leaves: it says
// where a name ends, for the reader and for other callers alike, and what it leaves are the names still to be looked up.
fn children(draft: &Draft, side: Side, names: &[u8]) -> Children
    ensures { ChildrenAre draft.now side (parted names.now) result }
{
    let mut children = Children::none();
    let mut rest = names;
    while let Some((name, more)) = first_name(rest) {
        children = draft.and_child(side, children, name);
        rest = more;
    }
    children
}

impl Reader {
    // Nothing read.
    pub(crate) fn new() -> Reader
        ensures { meaning result ≡ blank }
    {
        Reader {
            draft: Draft::blank(),
            place: Place::Start,
        }
    }

    // A line that may come next.
    pub(crate) fn take(&mut self, line: Line<'_>) -> Result<(), Refusal>
        requires { (Formed (line_of line)) × (MayFollow (meaning self.old) (place_of self.old.place) (line_of line)) }
        ensures { Took (meaning self.old) (line_of line.entry) result (meaning self.new) }
    {
        match line {
            Line::Heading(block) => {
                self.place = Place::Inside(block);
                Ok(())
            }
            Line::Field { kind, steps } => {
                self.draft.name_field(kind, steps)?;
                self.place = Place::FieldNamed;
                Ok(())
            }
            Line::Step { u, v } => self.draft.extend_by(u, v),
            Line::Symbol { name, rank } => self.draft.declare_symbol(name, rank),
            Line::State { side, name, weight } => self.draft.declare_state(side, name, weight),
            Line::Rule {
                side,
                symbol,
                target,
                weight,
                children: names,
            } => {
                let children = children(&self.draft, side, names);
                self.draft.give_rule(side, symbol, target, weight, children)
            }
        }
    }

    // The bytes of a line.
    pub(crate) fn line(&mut self, bytes: &[u8]) -> Result<(), Refusal>
        ensures { TookBytes (meaning self.old) bytes.now result (meaning self.new) }
    {
        let line = parse(bytes).ok_or(Refusal::Malformed)?;
        if !may_follow(&self.draft, self.place, line) {
            return Err(Refusal::Malformed);
        }
        self.take(line)
    }
}
