// Reading a record from a text, and writing it.
ghost use Rattle.std.specs.Prelude.{◌≡◌, length, MatchResult, OnErr};
ghost use Rattle.format.specs.Records.{text_of};
ghost use Rattle.refusals.specs.declared.Refusal.TheVariants.{BufferTooShort};
ghost use Rattle.writer.specs.Declared.{Holds, TooShort};
ghost use Rattle.text.specs.Example.{example};
ghost use Rattle.text.specs.Exchange.{Refused, StandsFor, declared};

use crate::record::Record;
use reader::Fault;
use refusals::Refusal;

// The text of a new record.
const EXAMPLE: &[u8] =
    b"kind p steps\nprime 7 0\nu v\nsymbol rank\na 0\nf 2\nside state final\nA q 1\nB r 1\nside symbol target weight children\nA a q 1\nA f q 1 q q\nB a r 1\nB f r 3 r r\n";

impl TryFrom<&[u8]> for Record {
    type Error = Fault;

    ghost try_from_gives = { λ text r. MatchResult r (λ s. StandsFor text.now (declared s)) (Refused text.now) };

    fn try_from(text: &[u8]) -> Result<Record, Fault> {
        Record::from_text(text)
    }
}

impl Record {
    // The record that a text declares, or the text's first fault.
    pub fn from_text(text: &[u8]) -> Result<Record, Fault>
        ensures { MatchResult result (λ s. StandsFor text.now (declared s)) (Refused text.now) }
    {
        let draft = reader::read(text)?;
        Ok(Record { draft })
    }

    // That of the example text.
    pub fn new() -> Record
        ensures { text_of (declared result) ≡ example }
    {
        Record::from_text(EXAMPLE).unwrap()
    }

    // Reads another record in its place. A text that is refused leaves it as it was.
    pub fn read(&mut self, text: &[u8]) -> Result<(), Fault>
        ensures result { MatchResult result (λ _. StandsFor text.now (declared self.new)) (Refused text.now) }
        ensures same { OnErr result (self.new.draft ≡ self.old.draft) }
    {
        *self = Record::from_text(text)?;
        Ok(())
    }

    // Writes the text and gives its length. A buffer that is too short is left as it was.
    pub fn write(&self, out: &mut [u8]) -> Result<usize, Refusal>
        ensures { MatchResult result (Holds (text_of (declared self.now)) out.old out.new) (λ e. (e ≡ BufferTooShort) × TooShort (text_of (declared self.now)) out.old out.new (length (text_of (declared self.now)))) }
    {
        writer::write(&self.draft, out).map_err(|_| Refusal::BufferTooShort)
    }

    // The record written into the buffer and read from there again.
    pub fn reread(&self, buffer: &mut [u8]) -> Result<Record, Refusal>
        ensures { MatchResult result (λ s. declared s ≡ declared self.now) (λ e. (e ≡ BufferTooShort) × TooShort (text_of (declared self.now)) buffer.old buffer.new (length (text_of (declared self.now)))) }
    {
        let n = self.write(buffer)?;
        Ok(Record::from_text(&buffer[..n]).unwrap())
    }
}
