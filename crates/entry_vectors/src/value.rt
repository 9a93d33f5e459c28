// The value of the last entry.
ghost use Rattle.std.specs.Prelude.{◌≡◌, ◌<◌, []};
ghost use Rattle.automaton.specs.Tables.{automaton_of};
ghost use Rattle.equivalence.specs.Valuing.{last_or};
ghost use Rattle.field.specs.Algebra.{ops};
ghost use Rattle.field.specs.Ops.{dot};
ghost use Rattle.vectors.specs.Tables.{vectors_of};

use crate::Valuation;
use field::Field;

impl<'a, F: Field> Valuation<'a, F> {
    // The sum over the states of the final weight times the last vector's element; of no entry, zero.
    pub fn value(&self) -> u32
        ensures value { result ≡ dot (ops (F.Field.model self.now.field.now)) (automaton_of self.now.automaton.now).finals (last_or [] (vectors_of self.now.vectors)) }
        ensures below { result < (F.Field.model self.now.field.now).size }
    {
        let Some(last) = self.vectors.last() else {
            return 0;
        };
        let mut sum = 0;
        for (weight, x) in self.automaton.finals().iter().rev().zip(last.iter().rev()) {
            sum = self.field.add(self.field.mul(*weight, *x), sum);
        }
        sum
    }
}
