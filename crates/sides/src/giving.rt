// Rules and final weights given to one side.
ghost use Rattle.std.specs.Prelude.{◌≡◌, ◌≤◌, Decides};
ghost use Rattle.automaton.specs.Tables.{automaton_of};
ghost use Rattle.sides.specs.Sides.{Takes};
ghost use Rattle.session.specs.Calls.{IfRefused, StateOf, final_checks, rule_checks};
ghost use Rattle.session.specs.Sessions.{ruled, weighted};
ghost use Rattle.std.specs.List.{AllByRecursion};
ghost use Rattle.table.specs.Items.{items_of};

use crate::setting::Setting;
use automaton::{Automaton, rank_of};
use field::Field;
use refusals::Refusal;
use rules::Rule;
use table::Table;

// Whether a number is that of a state.
fn is_state(m: &Automaton, state: u32) -> bool
    ensures { Decides result (StateOf (automaton_of m.now) state) }
{
    state >= 1 && state as usize <= m.state_count()
}

// Whether all the numbers are.
fn are_states(m: &Automaton, states: &[u32]) -> bool
    ensures { Decides result (AllByRecursion (StateOf (automaton_of m.now)) states.now) }
{
    states.iter().all(|state| is_state(m, *state))
}

// Replaces the final weight of a state.
pub fn give_final<F: Field>(
    f: &F,
    m: &mut Automaton,
    state: u32,
    weight: u32,
) -> Result<(), Refusal>
    ensures does { Takes (final_checks (F.Field.model f.now) (automaton_of m.old) state weight) result m.old (weighted (automaton_of m.old) state weight) m.new }
    ensures same { IfRefused result (m.new ≡ m.old) }
{
    if !is_state(m, state) {
        return Err(Refusal::Undeclared);
    }
    if weight as u64 >= f.size() {
        return Err(Refusal::WeightTooLarge);
    }
    m.set_final(state, weight);
    Ok(())
}

// One rule more, over symbols of these ranks.
pub fn give_rule<F: Field>(
    f: &F,
    ranks: &[u32],
    m: &mut Automaton,
    symbol: u32,
    target: u32,
    weight: u32,
    children: &[u32],
) -> Result<(), Refusal>
    requires small { AllByRecursion (λ k. k ≤ 3) ranks.now }
    ensures does { Takes (rule_checks (F.Field.model f.now) ranks.now (automaton_of m.old) symbol target weight children.now) result m.old (ruled (automaton_of m.old) (record { symbol = symbol; target = target; weight = weight; children = children.now })) m.new }
    ensures same { IfRefused result (m.new ≡ m.old) }
{
    let rank = rank_of(ranks, symbol).ok_or(Refusal::Undeclared)?;
    if children.len() != rank as usize {
        return Err(Refusal::WrongChildren);
    }
    if !is_state(m, target) || !are_states(m, children) {
        return Err(Refusal::Undeclared);
    }
    if weight as u64 >= f.size() {
        return Err(Refusal::WeightTooLarge);
    }
    m.add_rule(Rule {
        symbol,
        target,
        weight,
        children: Table::from_slice(children),
    })?;
    Ok(())
}

// The same over the field and the symbols of a setting.
impl<F: Field> Setting<F> {
    // Replaces the final weight of a state.
    pub fn give_final(&self, m: &mut Automaton, state: u32, weight: u32) -> Result<(), Refusal>
        ensures does { Takes (final_checks (F.Field.model self.now.field) (automaton_of m.old) state weight) result m.old (weighted (automaton_of m.old) state weight) m.new }
        ensures same { IfRefused result (m.new ≡ m.old) }
    {
        give_final(&self.field, m, state, weight)
    }

    // One rule more.
    pub fn give_rule(
        &self,
        m: &mut Automaton,
        symbol: u32,
        target: u32,
        weight: u32,
        children: &[u32],
    ) -> Result<(), Refusal>
        ensures does { Takes (rule_checks (F.Field.model self.now.field) (items_of self.now.ranks) (automaton_of m.old) symbol target weight children.now) result m.old (ruled (automaton_of m.old) (record { symbol = symbol; target = target; weight = weight; children = children.now })) m.new }
        ensures same { IfRefused result (m.new ≡ m.old) }
    {
        let ranks = self.ranks.items();
        give_rule(&self.field, ranks, m, symbol, target, weight, children)
    }
}
