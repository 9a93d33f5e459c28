// Operations with known results, kind by kind. The results are those of FIPS 197, or worked by hand, or by schoolbook
// arithmetic on integers of any size in another language, with inverses as powers (Fermat).
use Op::{Add, Div, Inv, Mul, Neg};
use std::fmt;

#[derive(Clone, Copy)]
pub enum Op {
    Add,
    Mul,
    Neg,
    Inv,
    Div,
}

impl fmt::Display for Op {
    fn fmt<W: fmt::Write>(&self, f: &mut fmt::Formatter<W>) -> fmt::Result {
        f.write_str(match self {
            Op::Add => "add",
            Op::Mul => "mul",
            Op::Neg => "neg",
            Op::Inv => "inv",
            Op::Div => "div",
        })
    }
}

// An operation at two codes and its result, absent where there is none. It is a table of plain numbers, printed as it stands:
// the second code is 0 where the operation takes one, and an operation with its own codes would make the rows no plainer.
#[derive(Clone, Copy)]
pub struct Row(pub Op, pub u32, pub u32, pub Option<u32>);

// The sum and products of FIPS 197, with the doublings that give {57}·{13}, and the products of its first MixColumns step.
pub const BYTE: [Row; 16] = [
    Row(Add, 0x57, 0x83, Some(0xd4)),
    Row(Mul, 0x57, 0x83, Some(0xc1)),
    Row(Mul, 0x57, 0x13, Some(0xfe)),
    Row(Mul, 0x57, 0x02, Some(0xae)),
    Row(Mul, 0xae, 0x02, Some(0x47)),
    Row(Mul, 0x47, 0x02, Some(0x8e)),
    Row(Mul, 0x8e, 0x02, Some(0x07)),
    Row(Mul, 0x02, 0xd4, Some(0xb3)),
    Row(Mul, 0x03, 0xbf, Some(0xda)),
    Row(Mul, 0x57, 0x00, Some(0x00)),
    Row(Neg, 0x57, 0x00, Some(0x57)),
    Row(Inv, 0x53, 0x00, Some(0xca)),
    Row(Inv, 0x01, 0x00, Some(0x01)),
    Row(Inv, 0x02, 0x00, Some(0x8d)),
    Row(Inv, 0x00, 0x00, None),
    Row(Div, 0xc1, 0x83, Some(0x57)),
];

pub const MODULO_7: [Row; 8] = [
    Row(Add, 5, 4, Some(2)),
    Row(Mul, 5, 4, Some(6)),
    Row(Neg, 0, 0, Some(0)),
    Row(Neg, 3, 0, Some(4)),
    Row(Inv, 3, 0, Some(5)),
    Row(Inv, 6, 0, Some(6)),
    Row(Inv, 0, 0, None),
    Row(Div, 1, 0, None),
];

pub const MODULO_65521: [Row; 5] = [
    Row(Mul, 65520, 65520, Some(1)),
    Row(Mul, 12345, 54321, Some(50831)),
    Row(Inv, 2, 0, Some(32761)),
    Row(Inv, 4096, 0, Some(61154)),
    Row(Add, 65520, 65520, Some(65519)),
];

pub const MODULO_4294967279: [Row; 5] = [
    Row(Add, 4294967278, 2, Some(1)),
    Row(Mul, 4000000007, 2147483648, Some(1787745467)),
    Row(Neg, 1, 0, Some(4294967278)),
    Row(Inv, 2, 0, Some(2147483640)),
    Row(Inv, 65536, 0, Some(4042326000)),
];

pub const MODULO_4294967291: [Row; 7] = [
    Row(Add, 4294967290, 4294967290, Some(4294967289)),
    Row(Mul, 4294967290, 4294967290, Some(1)),
    Row(Mul, 3000000019, 4123456789, Some(1630524035)),
    Row(Inv, 2, 0, Some(2147483646)),
    Row(Inv, 3, 0, Some(1431655764)),
    Row(Inv, 4294967290, 0, Some(4294967290)),
    Row(Inv, 1234567890, 0, Some(4085158523)),
];

// Over the residues modulo 3, with ω² = 2.
pub const NINE: [Row; 7] = [
    Row(Add, 4, 5, Some(6)),
    Row(Mul, 3, 3, Some(2)),
    Row(Mul, 7, 8, Some(1)),
    Row(Neg, 5, 0, Some(7)),
    Row(Inv, 4, 0, Some(5)),
    Row(Inv, 8, 0, Some(7)),
    Row(Inv, 0, 0, None),
];

// Over the residues modulo 65521, with ω² = 17.
pub const EXTENDED_65521: [Row; 4] = [
    Row(Mul, 4000000000, 4100000000, Some(1272076207)),
    Row(Mul, 4293001440, 4293001440, Some(131060)),
    Row(Inv, 65521, 0, Some(2777828316)),
    Row(Inv, 4000000000, 0, Some(1602994297)),
];

// Two steps over the residues modulo 7: ω² = 3, then ω² = 8.
pub const TOWER_7: [Row; 4] = [
    Row(Mul, 49, 49, Some(8)),
    Row(Mul, 2400, 1234, Some(1557)),
    Row(Inv, 50, 0, Some(1729)),
    Row(Inv, 2400, 0, Some(2216)),
];

// Over GF(256), with ω² = ω + 32.
pub const WORD: [Row; 4] = [
    Row(Mul, 256, 256, Some(288)),
    Row(Mul, 0x5783, 0x1357, Some(11571)),
    Row(Inv, 256, 0, Some(14906)),
    Row(Inv, 0xffff, 0, Some(44544)),
];

// A second step over that, with ω² = ω + 8192: a field of 4,294,967,296 elements.
pub const TOWER_BYTE: [Row; 7] = [
    Row(Add, 0xdeadbeef, 0xcafebabe, Some(340984913)),
    Row(Mul, 65536, 65536, Some(73728)),
    Row(Mul, 0xdeadbeef, 0xcafebabe, Some(136944615)),
    Row(Inv, 65536, 0, Some(858993459)),
    Row(Inv, 0xdeadbeef, 0, Some(3513213213)),
    Row(Inv, 4294967295, 0, Some(5373952)),
    Row(Div, 136944615, 0xdeadbeef, Some(0xcafebabe)),
];
