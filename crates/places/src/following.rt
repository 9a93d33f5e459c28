// Which lines may come next, and where a text may end.
ghost use Rattle.std.specs.Prelude.{Decides};
ghost use Rattle.format.specs.Reading.{Complete, MayFollow};
ghost use Rattle.lines.specs.Recognized.{line_of};
ghost use Rattle.drafts.specs.Drafts.{draft_of};
ghost use Rattle.drafts.specs.declared.Draft.{Draft};
ghost use Rattle.places.specs.Places.{place_of};

use crate::place::Place;
use drafts::Draft;
use lines::{Block, Line, Side};

// Whether the line may come next, after what the draft declares.
pub fn may_follow(draft: &Draft, place: Place, line: Line<'_>) -> bool
    ensures { Decides result (MayFollow (draft_of draft.now (place_of place)) (place_of place) (line_of line.entry)) }
{
    match (place, line) {
        (Place::Start, Line::Heading(Block::Fields)) => true,
        (Place::Inside(Block::Fields), Line::Field { .. }) => true,
        (Place::FieldNamed, Line::Heading(Block::Steps)) => true,
        (Place::Inside(Block::Steps), Line::Step { .. }) => draft.extended() < draft.announced(),
        (Place::Inside(Block::Steps), Line::Heading(Block::Symbols)) => {
            draft.extended() == draft.announced()
        }
        (Place::Inside(Block::Symbols), Line::Symbol { .. }) => true,
        (Place::Inside(Block::Symbols), Line::Heading(Block::States)) => draft.symbol_count() >= 1,
        (Place::Inside(Block::States), Line::State { side: Side::A, .. }) => {
            draft.state_count(Side::B) == 0
        }
        (Place::Inside(Block::States), Line::State { side: Side::B, .. }) => {
            draft.state_count(Side::A) >= 1
        }
        (Place::Inside(Block::States), Line::Heading(Block::Rules)) => {
            draft.state_count(Side::B) >= 1
        }
        (Place::Inside(Block::Rules), Line::Rule { side: Side::A, .. }) => {
            draft.rule_count(Side::B) == 0
        }
        (Place::Inside(Block::Rules), Line::Rule { side: Side::B, .. }) => true,
        _ => false,
    }
}

// Whether the text may end, whatever the draft declares.
pub fn is_end(place: Place) -> bool
    ensures { (d : Draft) → Decides result (Complete (draft_of d (place_of place))) }
{
    matches!(place, Place::Inside(Block::Rules))
}
