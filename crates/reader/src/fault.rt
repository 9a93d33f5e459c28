// Why a text is refused, and where.
use refusals::Refusal;

// The line is counted from 1; it is the number 0 where the text as a whole is refused, as the printed page has it.
#[derive(Clone, Copy)]
pub struct Fault {
    pub refusal: Refusal,
    pub line: u32,
}
