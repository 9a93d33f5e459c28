// How a comparison begins.
ghost use Rattle.comparison.specs.Comparisons.{Counted, count_a, count_b, field_of, session};
ghost use Rattle.session.specs.Sessions.{begun};
ghost use Rattle.std.specs.Prelude.{◌≡◌};

use crate::comparison::Comparison;
use crate::counts::Counts;
use engine::State;
use field::Field;
use refusals::Refusal;
use session::Phase;

impl Counts {
    // The counts, unless one is outside 1 to 12.
    pub fn new(a: u32, b: u32) -> Result<Counts, Refusal>
        ensures { Counted a b result }
    {
        if !(1..=12).contains(&a) || !(1..=12).contains(&b) {
            return Err(Refusal::StateCountOutOfRange);
        }
        Ok(Counts {
            a: a as usize,
            b: b as usize,
        })
    }
}

impl<F: Field> Comparison<F> {
    // No symbols, no rules, all final weights zero, and open.
    pub fn begin(field: F, counts: Counts) -> Comparison<F>
        ensures holds { session result ≡ begun (count_a counts) (count_b counts) }
        ensures field { field_of result ≡ field }
    {
        Comparison {
            phase: Phase::Open,
            state: State::begin(field, counts.a, counts.b),
        }
    }
}
