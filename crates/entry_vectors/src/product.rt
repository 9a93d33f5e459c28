// The product of the elements of children.
ghost use Rattle.std.specs.Prelude.{◌≡◌, ◌<◌, length};
ghost use Rattle.equivalence.specs.Valuing.{through};
ghost use Rattle.field.specs.Algebra.{ops};
ghost use Rattle.field.specs.Codes.{Codes};
ghost use Rattle.vectors.specs.Tables.{vectors_of, width_of};
ghost use Rattle.entry_vectors.specs.Combining.{Among, named};

use automaton::Entry;
use field::Field;
use vectors::Vectors;

// The children of an entry: its child numbers before the first 0.
pub(crate) fn children(e: &Entry) -> &[u32]
    ensures { result.now ≡ named e.now.children }
{
    let arity = e.children.iter().position(|c| *c == 0).unwrap_or(3);
    &e.children[..arity]
}

// The product of the children's elements at these states, and zero where there are not as many states as children.
pub(crate) fn through<F: Field>(f: &F, vectors: &Vectors, children: &[u32], states: &[u32]) -> u32
    requires codes { Codes (F.Field.model f.now).size (vectors_of vectors.now) }
    requires children { Among (length (vectors_of vectors.now)) children.now }
    requires states { Among (width_of vectors.now) states.now }
    ensures value { result ≡ through (ops (F.Field.model f.now)) (vectors_of vectors.now) children.now states.now }
    ensures below { result < (F.Field.model f.now).size }
{
    if children.len() != states.len() {
        return 0;
    }
    let mut product = 1;
    for (child, state) in children.iter().rev().zip(states.iter().rev()) {
        let x = vectors.element(*child, *state);
        product = f.mul(x, product);
    }
    product
}
