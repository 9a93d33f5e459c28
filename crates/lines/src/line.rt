// What a line says. Names are parts of the text that the line stands in.
use shapes::shape::Kind;
use side::Side;

#[derive(Clone, Copy)]
pub enum Block {
    Fields,
    Steps,
    Symbols,
    States,
    Rules,
}

// The children of a rule are one part of the line, names parted by spaces; it is empty where there are none.
#[derive(Clone, Copy)]
pub enum Line<'a> {
    Heading(Block),
    Field {
        kind: Kind,
        steps: u32,
    },
    Step {
        u: u32,
        v: u32,
    },
    Symbol {
        name: &'a [u8],
        rank: u32,
    },
    State {
        side: Side,
        name: &'a [u8],
        weight: u32,
    },
    Rule {
        side: Side,
        symbol: &'a [u8],
        target: &'a [u8],
        weight: u32,
        children: &'a [u8],
    },
}
