// The text of a draft's declarations, written into a caller's buffer.
#![tactic(auto)]

ghost use Rattle.format.specs.Records.{text_of};
ghost use Rattle.words.specs.Puts.{Writes, overlaid};
ghost use Rattle.writer.specs.Declared.{Holds, TooShort};
ghost use Rattle.drafts.specs.Drafts.{record_of};
ghost use Rattle.std.specs.Prelude.{◌≡◌, length, MatchResult};

use crate::blocks::{put_both_rules, put_both_states, put_field, put_symbols};
use drafts::Draft;
use words::Pen;

mod blocks;

// Writes the text.
fn put_text(pen: &mut Pen<'_>, d: &Draft)
    ensures { Writes pen.old (text_of (record_of d.now)) pen.new }
{
    put_field(pen, d);
    put_symbols(pen, d);
    put_both_states(pen, d);
    put_both_rules(pen, d);
}

// Writes the text as far as the buffer reaches, and answers its length.
pub fn put_record(out: &mut [u8], d: &Draft) -> usize
    ensures next { result ≡ length (text_of (record_of d.now)) }
    ensures put { out.new ≡ overlaid out.old 0 (text_of (record_of d.now)) }
{
    let mut pen = Pen::new(out);
    put_text(&mut pen, d);
    pen.place()
}

// Writes the text and answers its length. A buffer that is too short is left as it was, and the
// length that the text needs is the error, a plain number that a caller can make room by.
pub fn write(d: &Draft, out: &mut [u8]) -> Result<usize, usize>
    ensures { MatchResult result (Holds (text_of (record_of d.now)) out.old out.new) (TooShort (text_of (record_of d.now)) out.old out.new) }
{
    let needed = put_record(&mut [], d);
    if needed <= out.len() {
        Ok(put_record(out, d))
    } else {
        Err(needed)
    }
}
