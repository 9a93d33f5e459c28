// The calls. What each does is said by the checks and the sessions of its theory; a refused one leaves all as it was.
ghost use Rattle.automaton.specs.Tables.{entry_of};
ghost use Rattle.comparison.specs.Comparisons.{field_of, session};
ghost use Rattle.refusals.specs.declared.Refusal.TheVariants.{Sealed};
ghost use Rattle.session.specs.Calls.{Does, IfRefused, call_final, call_rule, call_symbol, call_weigh};
ghost use Rattle.session.specs.declared.Phase.TheVariants.{Open};
ghost use Rattle.std.specs.Prelude.{◌≡◌, ◌≢◌, map, MatchResult};

use crate::comparison::Comparison;
use automaton::Entry;
use field::Field;
use refusals::Refusal;
use session::Phase;
use side::Side;

impl<F: Field> Comparison<F> {
    // Declaring ends when the comparison is sealed.
    fn check_open(&self) -> Result<(), Refusal>
        ensures { MatchResult result (λ _. self.now.phase ≡ Open) (λ e. (self.now.phase ≢ Open) × (e ≡ Sealed)) }
    {
        match self.phase {
            Phase::Open => Ok(()),
            _ => Err(Refusal::Sealed),
        }
    }

    // Declares a symbol of the rank, and gives its number.
    pub fn symbol(&mut self, rank: u32) -> Result<u32, Refusal>
        ensures does { Does (F.Field.model (field_of self.old)) (session self.old) (call_symbol rank) result (session self.new) }
        ensures field { field_of self.new ≡ field_of self.old }
        ensures same { IfRefused result (self.new ≡ self.old) }
    {
        self.check_open()?;
        self.state.symbol(rank)
    }

    // Gives a rule to a side: 0 is A, 1 is B. Here and below a call takes plain numbers and slices, of any value and length.
    pub fn rule(
        &mut self,
        side: u32,
        symbol: u32,
        target: u32,
        weight: u32,
        children: &[u32],
    ) -> Result<(), Refusal>
        ensures does { Does (F.Field.model (field_of self.old)) (session self.old) (call_rule side symbol target weight children.now) result (session self.new) }
        ensures field { field_of self.new ≡ field_of self.old }
        ensures same { IfRefused result (self.new ≡ self.old) }
    {
        self.check_open()?;
        let side = Side::try_from(side)?;
        self.state.rule(side, symbol, target, weight, children)
    }

    // Replaces the final weight of a state of a side.
    pub fn set_final(&mut self, side: u32, state: u32, weight: u32) -> Result<(), Refusal>
        ensures does { Does (F.Field.model (field_of self.old)) (session self.old) (call_final side state weight) result (session self.new) }
        ensures field { field_of self.new ≡ field_of self.old }
        ensures same { IfRefused result (self.new ≡ self.old) }
    {
        self.check_open()?;
        let side = Side::try_from(side)?;
        self.state.set_final(side, state, weight)
    }

    // The value in a side of the tree that a list of entries stands for.
    pub fn weigh(&self, side: u32, entries: &[Entry]) -> Result<u32, Refusal>
        ensures { Does (F.Field.model (field_of self.now)) (session self.now) (call_weigh side (map entry_of entries.now)) result (session self.now) }
    {
        let side = Side::try_from(side)?;
        self.state.weigh(side, entries)
    }
}
