// Runs arithmetic with known results in every kind of field. Each line says what was expected and what came, the last one
// how many cases there were and how many were wrong.
#![tactic(auto)]

ghost use Rattle.std.specs.Prelude.{◌<◌};

use field::Field;
use gf256::Byte;
use prime::Prime;
use quadratic::{Pair, extend};
use std::{fmt, io};
use tally::Tally;
use worked::perform::perform;
use worked::rows::Row;
use worked::{rows, worked_arithmetic};

// A result as it is printed: the code, or a dash where there is none.
#[derive(Clone, Copy)]
struct Shown(Option<u32>);

impl fmt::Display for Shown {
    fn fmt<W: fmt::Write>(&self, f: &mut fmt::Formatter<W>) -> fmt::Result {
        match self.0 {
            Some(code) => write!(f, "{code}"),
            None => write!(f, "-"),
        }
    }
}

// The coefficients of a quadratic extension, by a root of X² − uX − v.
#[derive(Clone, Copy)]
struct Step {
    u: u32,
    v: u32,
}

// Where the cases are printed, and how many there were.
#[derive(Drop)]
struct Cases<'a, P: Print> {
    rt: &'a P,
    tally: Tally,
}

impl<P: Print> Cases<'_, P> {
    // Runs rows in a field. Codes past its size give no result, which is then counted as wrong.
    fn run<F: Field>(&mut self, name: &str, f: &F, rows: &[Row]) -> io::Result<()> {
        let size = f.size();
        for row in rows {
            let Row(op, a, b, expected) = *row;
            let got = if (a as u64) < size && (b as u64) < size {
                perform(f, op, a, b)
            } else {
                None
            };
            let wanted = Shown(expected);
            let came = Shown(got);
            println!(self.rt; "{name} {op} {a} {b}: expected {wanted}, got {came}")?;
            self.tally.note(got == expected);
        }
        Ok(())
    }

    // An extension of the base; where there is no such field that counts as one wrong case.
    fn extended<F: Field + Drop>(
        &mut self,
        name: &str,
        base: F,
        step: Step,
    ) -> io::Result<Option<Pair<F>>> {
        let pair = extend(base, step.u, step.v);
        if pair.is_none() {
            self.tally.note(false);
            println!(self.rt; "{name}: no field")?;
        }
        Ok(pair)
    }

    // Runs rows in an extension of the base.
    fn run_over<F: Field + Drop>(
        &mut self,
        name: &str,
        base: F,
        step: Step,
        rows: &[Row],
    ) -> io::Result<()> {
        if let Some(pair) = self.extended(name, base, step)? {
            self.run(name, &pair, rows)?;
        }
        Ok(())
    }

    // The same in an extension of an extension.
    fn run_tower<F: Field + Drop>(
        &mut self,
        name: &str,
        base: F,
        steps: (Step, Step),
        rows: &[Row],
    ) -> io::Result<()> {
        if let Some(pair) = self.extended(name, base, steps.0)? {
            self.run_over(name, pair, steps.1, rows)?;
        }
        Ok(())
    }

    fn primes(&mut self) -> io::Result<()> {
        self.run("prime 7", &Prime::new(7), &rows::MODULO_7)?;
        self.run("prime 65521", &Prime::new(65521), &rows::MODULO_65521)?;
        let second = Prime::new(4294967279);
        self.run("prime 4294967279", &second, &rows::MODULO_4294967279)?;
        let largest = Prime::new(4294967291);
        self.run("prime 4294967291", &largest, &rows::MODULO_4294967291)
    }

    fn pairs(&mut self) -> io::Result<()> {
        let step = Step { u: 0, v: 2 };
        self.run_over("prime 3 by 0 2", Prime::new(3), step, &rows::NINE)?;
        let step = Step { u: 0, v: 17 };
        let base = Prime::new(65521);
        self.run_over("prime 65521 by 0 17", base, step, &rows::EXTENDED_65521)?;
        let step = Step { u: 1, v: 32 };
        self.run_over("byte by 1 32", Byte, step, &rows::WORD)
    }

    fn towers(&mut self) -> io::Result<()> {
        let steps = (Step { u: 0, v: 3 }, Step { u: 0, v: 8 });
        let base = Prime::new(7);
        self.run_tower("prime 7 by 0 3 by 0 8", base, steps, &rows::TOWER_7)?;
        let steps = (Step { u: 1, v: 32 }, Step { u: 1, v: 8192 });
        self.run_tower("byte by 1 32 by 1 8192", Byte, steps, &rows::TOWER_BYTE)
    }

    // The cases that are also proved of the definitions.
    fn proved(&mut self) -> io::Result<()> {
        let got = worked_arithmetic();
        let expected = [Some(193), Some(202), Some(2), Some(5)];
        for (came, wanted) in got.iter().zip(expected.iter()) {
            let right = *came == *wanted;
            let came = Shown(*came);
            let wanted = Shown(*wanted);
            println!(self.rt; "worked case: expected {wanted}, got {came}")?;
            self.tally.note(right);
        }
        Ok(())
    }
}

fn main(rt: HostRuntime) -> io::Result<()> {
    let mut cases = Cases {
        rt: &rt,
        tally: Tally::new(),
    };
    cases.run("byte", &Byte, &rows::BYTE)?;
    cases.primes()?;
    cases.pairs()?;
    cases.towers()?;
    cases.proved()?;
    let tally = cases.tally;
    println!(rt; "{tally}")
}
