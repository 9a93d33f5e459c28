// Reading a text: line by line, each where it may follow and passes its checks.
#![tactic(auto)]

ghost use Rattle.std.specs.Result.{MatchResult};
ghost use Rattle.format.specs.Reading.{Accepted, Faulty};
ghost use Rattle.refusals.specs.Numbers.{number};
ghost use Rattle.drafts.specs.Drafts.{record_of};

use drafts::Draft;
use places::is_end;
use refusals::Refusal;
use words::cut;

mod fault;
mod reader;
mod taking;

pub use fault::Fault;
use reader::Reader;

// The most bytes that a text may have.
const LONGEST: usize = 65536;

// What the text declares, where it is accepted; else the first fault.
pub fn read(text: &[u8]) -> Result<Draft, Fault>
    ensures { MatchResult result (λ d. Accepted text.now (record_of d)) (λ f. Faulty text.now (number f.refusal) f.line) }
{
    if text.len() > LONGEST {
        return Err(Fault {
            refusal: Refusal::TextTooLong,
            line: 0,
        });
    }
    // A loop by what `cut` leaves: what follows the last line feed is no line, and its number is wanted after the loop.
    let mut reader = Reader::new();
    let mut rest = text;
    let mut line: u32 = 1;
    while let Some((bytes, more)) = cut(rest, b'\n') {
        reader
            .line(bytes)
            .map_err(|refusal| Fault { refusal, line })?;
        rest = more;
        line += 1;
    }
    if !rest.is_empty() || !is_end(reader.place) {
        return Err(Fault {
            refusal: Refusal::Malformed,
            line,
        });
    }
    Ok(reader.draft)
}
