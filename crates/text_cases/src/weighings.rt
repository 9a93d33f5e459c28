// Trees weighed by two automata in each kind of field, and the calls of a comparison refused at their edges.
use crate::run::Run;
use crate::weigh_rows::{
    GivenTree, LARGEST, OCTET_PAIR, OCTET_TOWER, OCTETS, RANKS, RULES, SEVEN, SEVEN_TOWER, TREES,
    Weighed,
};
use automaton::Entry;
use comparison::{Comparison, Counts};
use field::Field;
use gf256::Byte;
use prime::Prime;
use quadratic::extend;
use refusals::Refusal;
use std::alloc::Global;
use std::fmt;

// The entries of a tree.
fn entries(heap: Global, tree: &GivenTree) -> anyhow::Result<Vec<Entry>> {
    let mut entries = Vec::new(heap);
    for node in tree.1 {
        let (symbol, x, y, z) = *node;
        entries.push(Entry {
            symbol,
            children: [x, y, z],
        })?;
    }
    for _ in 0..tree.2 {
        let last = u32::try_from(entries.len())?;
        entries.push(Entry {
            symbol: 2,
            children: [last, last, 0],
        })?;
    }
    Ok(entries)
}

// Declares the two automata; a refusal shows in the values.
fn declare<F: Field>(c: &mut Comparison<F>, weight: u32) {
    for rank in &RANKS {
        let _ = c.symbol(*rank);
    }
    for rule in &RULES {
        let _ = c.rule(rule.0, rule.1, rule.2, rule.3, rule.4);
    }
    let _ = c.rule(0, 2, 2, weight, &[1, 2]);
    let _ = c.set_final(0, 1, 1);
    let _ = c.set_final(0, 1, 2);
    let _ = c.set_final(0, 2, 3);
    let _ = c.set_final(1, 2, 1);
}

// The number of a refusal, which is printed as 0 where there is none.
#[derive(Clone, Copy, PartialEq, Eq)]
struct Number(Option<u32>);

const DONE: Number = Number(None);

impl fmt::Display for Number {
    fn fmt<W: fmt::Write>(&self, f: &mut fmt::Formatter<W>) -> fmt::Result {
        let number = self.0.unwrap_or(0);
        write!(f, "{number}")
    }
}

fn number_of<T: Drop>(r: Result<T, Refusal>) -> Number {
    Number(r.err().map(Refusal::number))
}

// What is asked, the number expected and the number given.
#[derive(Clone, Copy)]
struct Edge(&'static str, Number, Number);

// An edge at which a call has to be refused by a number.
fn refused<T: Drop>(what: &'static str, wanted: u32, r: Result<T, Refusal>) -> Edge {
    Edge(what, Number(Some(wanted)), number_of(r))
}

fn declaring(c: &mut Comparison<Prime>) -> [Edge; 9] {
    [
        refused("a rank of 4", 110, c.symbol(4)),
        refused("a side of 2", 111, c.rule(2, 1, 1, 1, &[])),
        refused("symbol 0", 107, c.rule(0, 0, 1, 1, &[])),
        refused("a child too many", 109, c.rule(0, 1, 3, 1, &[1])),
        refused("target 3 of 2", 107, c.rule(0, 1, 3, 7, &[])),
        refused("child 3 of 2", 107, c.rule(0, 2, 1, 7, &[1, 3])),
        refused("a weight of 7", 105, c.rule(0, 1, 1, 7, &[])),
        refused("a final weight of 7", 105, c.set_final(0, 1, 7)),
        refused("a final of state 3", 107, c.set_final(1, 3, 7)),
    ]
}

// Fills the tables of symbols and of A's rules, and asks for one more of each.
fn filling(c: &mut Comparison<Prime>) -> [Edge; 4] {
    for _ in 4..12 {
        let _ = c.symbol(0);
    }
    for _ in 7..256 {
        let _ = c.rule(0, 12, 1, 1, &[]);
    }
    [
        refused("a 13th symbol", 205, c.symbol(0)),
        refused("a 13th symbol of rank 4", 110, c.symbol(4)),
        refused("a 257th rule", 205, c.rule(0, 12, 1, 1, &[])),
        Edge("a rule of B", DONE, number_of(c.rule(1, 12, 1, 1, &[]))),
    ]
}

fn leaf(symbol: u32, children: [u32; 3]) -> [Entry; 1] {
    [Entry { symbol, children }]
}

fn trees(c: &Comparison<Prime>, long: &[Entry]) -> [Edge; 7] {
    let itself = leaf(4, [1, 0, 0]);
    let past = leaf(1, [1, 0, 0]);
    let missing = leaf(4, [0, 0, 0]);
    [
        refused("no entry", 112, c.weigh(0, &[])),
        refused("65 entries", 112, c.weigh(0, long)),
        refused("side 2 and no entry", 111, c.weigh(2, &[])),
        refused("symbol 13", 112, c.weigh(0, &leaf(13, [0, 0, 0]))),
        refused("a child naming itself", 112, c.weigh(0, &itself)),
        refused("a child past the rank", 112, c.weigh(0, &past)),
        refused("a missing child", 112, c.weigh(0, &missing)),
    ]
}

// The weight of a tree as it is printed: a dash where the tree was refused.
#[derive(Clone, Copy, PartialEq, Eq)]
struct Weight(Option<u32>);

impl fmt::Display for Weight {
    fn fmt<W: fmt::Write>(&self, f: &mut fmt::Formatter<W>) -> fmt::Result {
        match self.0 {
            Some(weight) => write!(f, "{weight}"),
            None => write!(f, "-"),
        }
    }
}

impl Run<'_> {
    fn weighed<F: Field + Drop>(
        &mut self,
        name: &str,
        field: F,
        row: &Weighed,
    ) -> anyhow::Result<()> {
        let Ok(counts) = Counts::new(2, 2) else {
            self.tally.note(false);
            return Ok(());
        };
        let mut c = Comparison::begin(field, counts);
        declare(&mut c, row.0);
        for (tree, values) in TREES.iter().zip(row.1.iter()) {
            let list = entries(self.rt.alloc(), tree)?;
            let a = Weight(c.weigh(0, &list).ok());
            let b = Weight(c.weigh(1, &list).ok());
            let what = tree.0;
            let (x, y) = *values;
            println!(self.rt; "{name} weigh {what}: expected {x} {y}, got {a} {b}")?;
            self.tally
                .note(a == Weight(Some(x)) && b == Weight(Some(y)));
        }
        Ok(())
    }

    fn fields(&mut self) -> anyhow::Result<()> {
        self.weighed("prime 7", Prime::new(7), &SEVEN)?;
        self.weighed("prime 4294967291", Prime::new(4294967291), &LARGEST)?;
        self.weighed("byte", Byte, &OCTETS)
    }

    fn extensions(&mut self) -> anyhow::Result<()> {
        if let Some(pair) = extend(Byte, 1, 32) {
            self.weighed("byte by 1 32", pair, &OCTET_PAIR)?;
            if let Some(tower) = extend(pair, 1, 8192) {
                self.weighed("byte by 1 32 by 1 8192", tower, &OCTET_TOWER)?;
            }
        }
        if let Some(pair) = extend(Prime::new(7), 0, 3) {
            if let Some(tower) = extend(pair, 0, 8) {
                self.weighed("prime 7 by 0 3 by 0 8", tower, &SEVEN_TOWER)?;
            }
        }
        Ok(())
    }

    fn told(&mut self, edges: &[Edge]) -> anyhow::Result<()> {
        for edge in edges {
            let Edge(what, wanted, got) = *edge;
            println!(self.rt; "call with {what}: expected {wanted}, got {got}")?;
            self.tally.note(wanted == got);
        }
        Ok(())
    }

    fn edges(&mut self) -> anyhow::Result<()> {
        self.told(&[
            refused("0 states", 106, Counts::new(0, 1)),
            refused("13 states", 106, Counts::new(12, 13)),
        ])?;
        let Ok(two) = Counts::new(2, 2) else {
            self.tally.note(false);
            return Ok(());
        };
        let mut c = Comparison::begin(Prime::new(7), two);
        declare(&mut c, 6);
        self.told(&declaring(&mut c))?;
        self.told(&filling(&mut c))?;
        let long = entries(self.rt.alloc(), &GivenTree("", &[(1, 0, 0, 0)], 64))?;
        self.told(&trees(&c, &long))
    }

    pub fn weighings(&mut self) -> anyhow::Result<()> {
        self.fields()?;
        self.extensions()?;
        self.edges()
    }
}
