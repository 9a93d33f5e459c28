// What `compare` prints, from the bytes of a text to the bytes of the answer.
#![tactic(auto)]

ghost use Rattle.std.specs.Prelude.{◌≡◌, length as len, IfOk};
ghost use Rattle.format.specs.Records.{text_of};
ghost use Rattle.refusals.specs.Numbers.{number};
ghost use Rattle.text.specs.Exchange.{declared};
ghost use Rattle.report.specs.Printed.{Printed, refusal};

use reader::Fault;
use std::alloc::{AllocError, Global};
use text::Record;

// A refusal: the line of names, then the number and the line.
fn refused(heap: Global, fault: Fault) -> Result<Vec<u8>, AllocError>
    ensures { IfOk result (λ v. v.items ≡ refusal (number fault.refusal) fault.line) }
{
    let number = fault.refusal.number();
    let line = fault.line;
    let page = format!(in heap; "refused line\n{number} {line}\n")?;
    Ok(page.into_bytes())
}

// The text of a record, in `length` bytes.
fn written(heap: Global, source: &Record, length: usize) -> Result<Vec<u8>, AllocError>
    requires { length ≡ len (text_of (declared source.now)) }
    ensures { IfOk result (λ v. v.items ≡ text_of (declared source.now)) }
{
    let mut page = vec![in heap; 0u8; length]?;
    let _ = source.write(&mut page);
    Ok(page)
}

// The page that is printed for a text.
pub fn report(heap: Global, text: &[u8]) -> Result<Vec<u8>, AllocError>
    ensures { IfOk result (λ v. Printed text.now v.items) }
{
    match Record::from_text(text) {
        Ok(record) => written(heap, &record, text.len()),
        Err(fault) => refused(heap, fault),
    }
}
