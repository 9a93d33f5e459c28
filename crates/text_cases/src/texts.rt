// Texts, read, and written again where they are accepted.
use crate::run::Run;
use crate::text_rows::{PLAIN, Plain, REPEATED, Repeated};
use report::report;
use std::alloc::{AllocError, Global};
use std::fmt;
use text::Record;

// A fault by its number and line, or none.
#[derive(Clone, Copy, PartialEq, Eq)]
struct Outcome(Option<(u32, u32)>);

impl Outcome {
    // What reading gives.
    fn of(text: &[u8]) -> Outcome {
        let fault = Record::from_text(text).err();
        Outcome(fault.map(|fault| (fault.refusal.number(), fault.line)))
    }
}

impl fmt::Display for Outcome {
    fn fmt<W: fmt::Write>(&self, f: &mut fmt::Formatter<W>) -> fmt::Result {
        match self.0 {
            Some((number, line)) => write!(f, "{number} on line {line}"),
            None => write!(f, "accepted"),
        }
    }
}

// The page that has to be printed: the text again, or the fault.
fn page(heap: Global, text: &[u8], fault: Option<(u32, u32)>) -> Result<Vec<u8>, AllocError> {
    match fault {
        Some((number, line)) => {
            let lines = format!(in heap; "refused line\n{number} {line}\n")?;
            Ok(lines.into_bytes())
        }
        None => text.to_vec(heap),
    }
}

// The start, the part so many times, and the end.
fn made(heap: Global, row: &Repeated) -> Result<Vec<u8>, AllocError> {
    let Repeated(_, start, part, times, end, _) = *row;
    let mut text = start.as_bytes().to_vec(heap)?;
    for _ in 0..times {
        text.extend_from_slice(part.as_bytes())?;
    }
    text.extend_from_slice(end.as_bytes())?;
    Ok(text)
}

impl Run<'_> {
    fn text(&mut self, row: &Repeated) -> anyhow::Result<()> {
        let heap = self.rt.alloc();
        let Repeated(what, _, _, _, _, fault) = *row;
        let text = made(heap, row)?;
        let came = Outcome::of(&text);
        let wanted = Outcome(fault);
        let printed = report(heap, &text)?;
        let expected = page(heap, &text, fault)?;
        println!(self.rt; "text, {what}: expected {wanted}, got {came}")?;
        self.tally.note(came == wanted && printed.as_slice() == expected.as_slice());
        Ok(())
    }

    pub fn texts(&mut self) -> anyhow::Result<()> {
        for row in &PLAIN {
            let Plain(what, start, part, fault) = *row;
            self.text(&Repeated(what, start, part, 1, "", fault))?;
        }
        for row in &REPEATED {
            self.text(row)?;
        }
        Ok(())
    }
}
