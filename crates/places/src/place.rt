// Where reading stands.
use lines::Block;

// Before the first line, after the line that opens a block, or after the line that names the field.
#[derive(Clone, Copy)]
pub enum Place {
    Start,
    Inside(Block),
    FieldNamed,
}
