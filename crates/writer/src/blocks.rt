// The blocks of a text, each a heading and its lines. The sides go by a loop: what is called in one place is laid into its caller,
// and the pen, whose address then goes nowhere, stays in registers.
ghost use Rattle.drafts.specs.Drafts.{record_of};
ghost use Rattle.format.specs.Lines.{text_of_lines};
ghost use Rattle.format.specs.Records.{rule_lines, state_lines};
ghost use Rattle.lines.specs.Recognized.{side_of};
ghost use Rattle.words.specs.Puts.{Writes};
ghost use Rattle.writer.specs.Blocks.{field_block, rule_block, state_block, symbol_block};

use drafts::Draft;
use line_writer::{put_kind, put_rule, put_state, put_step, put_symbol};
use lines::Side;
use words::Pen;

// The blocks of the field and of its extensions.
pub fn put_field(pen: &mut Pen<'_>, d: &Draft)
    ensures { Writes pen.old (text_of_lines (field_block (record_of d.now))) pen.new }
{
    let steps = d.field().steps();
    pen.bytes(b"kind p steps\n");
    put_kind(pen, d.field().kind(), steps.len() as u32);
    pen.bytes(b"u v\n");
    for (u, v) in steps.items() {
        put_step(pen, *u, *v);
    }
}

// The block of symbols.
pub fn put_symbols(pen: &mut Pen<'_>, d: &Draft)
    ensures { Writes pen.old (text_of_lines (symbol_block (record_of d.now))) pen.new }
{
    pen.bytes(b"symbol rank\n");
    for symbol in d.symbols() {
        put_symbol(pen, symbol);
    }
}

// The lines of the states of a side.
fn put_states(pen: &mut Pen<'_>, d: &Draft, side: Side)
    ensures { Writes pen.old (text_of_lines (state_lines (record_of d.now) (side_of side))) pen.new }
{
    for state in d.part(side).states() {
        put_state(pen, side, state);
    }
}

// The lines of the rules of a side.
fn put_rules(pen: &mut Pen<'_>, d: &Draft, side: Side)
    ensures { Writes pen.old (text_of_lines (rule_lines (record_of d.now) (side_of side))) pen.new }
{
    let part = d.part(side);
    for rule in part.rules() {
        put_rule(pen, side, d.symbols(), part.states(), rule);
    }
}

// The block of states.
pub fn put_both_states(pen: &mut Pen<'_>, d: &Draft)
    ensures { Writes pen.old (text_of_lines (state_block (record_of d.now))) pen.new }
{
    pen.bytes(b"side state final\n");
    for side in [Side::A, Side::B] {
        put_states(pen, d, side);
    }
}

// The block of rules.
pub fn put_both_rules(pen: &mut Pen<'_>, d: &Draft)
    ensures { Writes pen.old (text_of_lines (rule_block (record_of d.now))) pen.new }
{
    pen.bytes(b"side symbol target weight children\n");
    for side in [Side::A, Side::B] {
        put_rules(pen, d, side);
    }
}
