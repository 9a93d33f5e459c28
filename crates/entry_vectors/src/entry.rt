// The vector of an entry, from those of the entries before it.
ghost use Rattle.std.specs.Prelude.{◌≡◌, ◌<◌, [], ◌∷◌, ◌++◌, length, take};
ghost use Rattle.automaton.specs.Tables.{automaton_of, entry_of};
ghost use Rattle.equivalence.specs.Automata.{Sound, states as many};
ghost use Rattle.equivalence.specs.Valuing.{entry_vector};
ghost use Rattle.field.specs.Algebra.{ops};
ghost use Rattle.field.specs.Codes.{AllBelow, Codes};
ghost use Rattle.vectors.specs.Tables.{vectors_of, width_of};
ghost use Rattle.entry_vectors.specs.Combining.{Earlier, added};

use crate::Valuation;
use crate::product::{children, through};
use automaton::{Automaton, Entry};
use field::Field;
use vectors::Vectors;

// Adds to the element of a state, if the vector has one.
fn add_at<F: Field>(f: &F, vector: &mut [u32], state: u32, x: u32)
    requires code { x < (F.Field.model f.now).size }
    requires codes { AllBelow (F.Field.model f.now).size vector.old }
    ensures value { vector.new ≡ added (ops (F.Field.model f.now)) state x vector.old }
    ensures below { AllBelow (F.Field.model f.now).size vector.new }
{
    if state == 0 || state as usize > vector.len() {
        return;
    }
    let at = state as usize - 1;
    vector[at] = f.add(x, vector[at]);
}

// The vector of a symbol over the vectors of its children, in the first places, as many as there are states. The earlier
// vectors are lent, for whoever keeps them.
pub fn entry_vector<F: Field>(f: &F, m: &Automaton, e: &Entry, earlier: &Vectors) -> [u32; 12]
    requires sound { Sound (F.Field.model f.now).size (automaton_of m.now) }
    requires codes { Codes (F.Field.model f.now).size (vectors_of earlier.now) }
    requires wide { width_of earlier.now ≡ many (automaton_of m.now) }
    requires earlier { Earlier (vectors_of earlier.now) (entry_of e.now) }
    ensures value { take (many (automaton_of m.now)) result ≡ entry_vector (ops (F.Field.model f.now)) (automaton_of m.now) (vectors_of earlier.now) (entry_of e.now) }
    ensures below { AllBelow (F.Field.model f.now).size result }
    ensures places { length result ≡ 12 }
{
    let children = children(e);
    let mut vector = [0; 12];
    for rule in m.rules().iter().rev() {
        if rule.symbol == e.symbol {
            let product = through(f, earlier, children, rule.children.items());
            let x = f.mul(rule.weight, product);
            add_at(f, &mut vector, rule.target, x);
        }
    }
    vector
}

impl<'a, F: Field> Valuation<'a, F> {
    // The vectors of no entry.
    pub fn new(field: &'a F, automaton: &'a Automaton) -> Valuation<'a, F>
        requires { Sound (F.Field.model field.now).size (automaton_of automaton.now) }
        ensures field { result.field.now ≡ field.now }
        ensures automaton { result.automaton.now ≡ automaton.now }
        ensures vectors { vectors_of result.vectors ≡ [] }
    {
        Self::over(field, automaton, Vectors::empty(automaton.state_count()))
    }

    // The vectors given, of codes of the field, with an element for each state.
    pub fn over(field: &'a F, automaton: &'a Automaton, vectors: Vectors) -> Valuation<'a, F>
        requires sound { Sound (F.Field.model field.now).size (automaton_of automaton.now) }
        requires codes { Codes (F.Field.model field.now).size (vectors_of vectors) }
        requires wide { width_of vectors ≡ many (automaton_of automaton.now) }
        ensures field { result.field.now ≡ field.now }
        ensures automaton { result.automaton.now ≡ automaton.now }
        ensures vectors { result.vectors ≡ vectors }
    {
        Valuation {
            field,
            automaton,
            vectors,
        }
    }

    // The vectors so far, lent.
    pub fn vectors(&self) -> &Vectors
        ensures { result.now ≡ self.now.vectors }
    {
        &self.vectors
    }

    // The vector of one entry more.
    pub fn push(&mut self, e: &Entry)
        requires room { length (vectors_of self.old.vectors) < 64 }
        requires earlier { Earlier (vectors_of self.old.vectors) (entry_of e.now) }
        ensures field { self.new.field.now ≡ self.old.field.now }
        ensures automaton { self.new.automaton.now ≡ self.old.automaton.now }
        ensures vectors { vectors_of self.new.vectors ≡ vectors_of self.old.vectors ++ (entry_vector (ops (F.Field.model self.old.field.now)) (automaton_of self.old.automaton.now) (vectors_of self.old.vectors) (entry_of e.now) ∷ []) }
    {
        let vector = self.vector(e);
        self.vectors.push(&vector);
    }

    // The vector of a symbol over the vectors of its children, in the first places, as many as there are states.
    pub fn vector(&self, e: &Entry) -> [u32; 12]
        requires earlier { Earlier (vectors_of self.now.vectors) (entry_of e.now) }
        ensures value { take (many (automaton_of self.now.automaton.now)) result ≡ entry_vector (ops (F.Field.model self.now.field.now)) (automaton_of self.now.automaton.now) (vectors_of self.now.vectors) (entry_of e.now) }
        ensures below { AllBelow (F.Field.model self.now.field.now).size result }
        ensures places { length result ≡ 12 }
    {
        entry_vector(self.field, self.automaton, e, &self.vectors)
    }
}
