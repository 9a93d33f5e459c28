// The lines of values.
ghost use Rattle.std.specs.Prelude.{◌≡◌, ℕ, ◌<◌, ◌≤◌, true, List, [], ◌∷◌, ◌++◌, length};
ghost use Rattle.format.specs.Lines.{declares_state, declares_symbol, extends_by, gives_rule, names_field};
ghost use Rattle.format.specs.Reading.{blank, nowhere};
ghost use Rattle.words.specs.Words.{is_name};
ghost use Rattle.drafts.specs.Drafts.{ChildrenAre, draft_of, extensions};
ghost use Rattle.lines.specs.Recognized.{side_of};
ghost use Rattle.drafts.specs.Refusals.{Makes, Takes};

use crate::{Draft, Part};
use field::Field;
use lines::Side;
use refusals::Refusal;
use rules::Rule;
use shapes::shape::{Kind, Shape};
use side::Both;
use table::Table;
use tables::{Children, State, Symbol};
use words::Name;

impl Draft {
    // Nothing declared.
    pub fn blank() -> Draft
        ensures { draft_of result nowhere ≡ blank }
    {
        let part = Part {
            states: Table::new(),
            rules: Table::new(),
        };
        Draft {
            field: Shape::of_kind(Kind::Bytes).unwrap(),
            announced: 0,
            symbols: Table::new(),
            parts: Both { a: part, b: part },
        }
    }

    // The field by its kind, with the number of extensions to come.
    pub fn name_field(&mut self, kind: Kind, announced: u32) -> Result<(), Refusal>
        requires two { announced ≤ 2 }
        requires unextended { extensions self.old ≡ [] }
        ensures { Takes self.old (names_field kind announced) result self.new }
    {
        self.field = Shape::of_kind(kind).ok_or(Refusal::NoSuchModulus)?;
        self.announced = announced;
        Ok(())
    }

    // One of the extensions announced, by u and v.
    pub fn extend_by(&mut self, u: u32, v: u32) -> Result<(), Refusal>
        requires { length (extensions self.old) < self.old.announced }
        ensures { Takes self.old (extends_by u v) result self.new }
    {
        self.field = self.field.extended(u, v).ok_or(Refusal::NoExtension)?;
        Ok(())
    }

    // A symbol and its rank.
    pub fn declare_symbol(&mut self, name: &[u8], rank: u32) -> Result<(), Refusal>
        requires { is_name name.now ≡ true }
        ensures { Takes self.old (declares_symbol name.now rank) result self.new }
    {
        if rank > 3 {
            return Err(Refusal::RankTooLarge);
        }
        if self.symbol_number(name).is_some() {
            return Err(Refusal::Repeated);
        }
        let name = Name::new(name).unwrap();
        self.symbols.push(Symbol { name, rank })?;
        Ok(())
    }

    // A state of a side and its final weight.
    pub fn declare_state(&mut self, side: Side, name: &[u8], weight: u32) -> Result<(), Refusal>
        requires { is_name name.now ≡ true }
        ensures { Takes self.old (declares_state (side_of side) name.now weight) result self.new }
    {
        if self.part(side).state_number(name).is_some() {
            return Err(Refusal::Repeated);
        }
        if weight as u64 >= self.field.size() {
            return Err(Refusal::WeightTooLarge);
        }
        let name = Name::new(name).unwrap();
        let part = self.parts.at_mut(side);
        part.states.push(State { name, weight })?;
        Ok(())
    }

    // A rule's children with one more of them, by its name.
    pub fn and_child(&self, side: Side, children: Children, name: &[u8]) -> Children
        ensures { (cs : List (List ℕ)) → ChildrenAre self.now side cs children → ChildrenAre self.now side (cs ++ (name.now ∷ [])) result }
    {
        children.and(self.part(side).state_number(name))
    }

    // The rule of a side with these names, where they are declared and it has as many children as its symbol's rank. What is
    // given are the parts of `Line::Rule` but for the children: a struct of the five would be taken apart at once.
    fn make_rule(
        &self,
        side: Side,
        symbol: &[u8],
        target: &[u8],
        weight: u32,
        children: Children,
    ) -> Result<Rule, Refusal>
        ensures { (cs : List (List ℕ)) → ChildrenAre self.now side cs children → Makes self.now (side_of side) symbol.now target.now weight cs result }
    {
        let symbol = self.symbol_number(symbol).ok_or(Refusal::Undeclared)?;
        if children.count() as u32 != self.rank(symbol) {
            return Err(Refusal::WrongChildren);
        }
        let part = self.part(side);
        let target = part.state_number(target).ok_or(Refusal::Undeclared)?;
        let children = children.declared().ok_or(Refusal::Undeclared)?;
        if weight as u64 >= self.field.size() {
            return Err(Refusal::WeightTooLarge);
        }
        Ok(Rule {
            symbol,
            target,
            weight,
            children,
        })
    }

    // A rule of a side: a symbol, a target, a weight and the children found.
    pub fn give_rule(
        &mut self,
        side: Side,
        symbol: &[u8],
        target: &[u8],
        weight: u32,
        children: Children,
    ) -> Result<(), Refusal>
        ensures { (cs : List (List ℕ)) → ChildrenAre self.old side cs children → Takes self.old (gives_rule (side_of side) symbol.now target.now weight cs) result self.new }
    {
        let rule = self.make_rule(side, symbol, target, weight, children)?;
        self.parts.at_mut(side).rules.push(rule)?;
        Ok(())
    }
}
