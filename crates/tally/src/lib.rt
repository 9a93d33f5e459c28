// Counting the cases of a run that compares what came with what was expected.
#![tactic(auto)]

ghost use Rattle.std.specs.Prelude.{◌≡◌, ◌+◌, ◌-◌, ◌^◌, min, if◌then◌else◌};

use std::fmt;

// How many cases were run, and how many gave another result than was expected.
#[derive(Clone, Copy)]
pub struct Tally {
    pub run: u32,
    pub wrong: u32,
}

impl Tally {
    // No case.
    pub fn new() -> Tally
        ensures { result ≡ record { run = 0; wrong = 0 } }
    {
        Tally { run: 0, wrong: 0 }
    }

    // One case more, right or wrong; the counts stop at their largest number.
    pub fn note(&mut self, right: bool)
        ensures run { self.new.run ≡ min (self.old.run + 1) (2 ^ 32 - 1) }
        ensures wrong { self.new.wrong ≡ min (self.old.wrong + (if right then 0 else 1)) (2 ^ 32 - 1) }
    {
        self.run = self.run.saturating_add(1);
        self.wrong = self.wrong.saturating_add(if right { 0 } else { 1 });
    }
}

impl fmt::Display for Tally {
    fn fmt<W: fmt::Write>(&self, f: &mut fmt::Formatter<W>) -> fmt::Result {
        write!(f, "{} cases, {} wrong", self.run, self.wrong)
    }
}
