// How a state begins.
ghost use Rattle.engine.specs.Open.{opened};
ghost use Rattle.engine.specs.States.{field_of, sides_of};
ghost use Rattle.session.specs.Sessions.{begun};
ghost use Rattle.std.specs.Prelude.{◌≡◌, ◌≤◌};

use crate::state::State;
use automaton::Automaton;
use field::Field;
use side::Both;
use sides::Setting;

impl<F: Field> State<F> {
    // Nothing declared, with so many states on each side.
    pub fn begin(field: F, a: usize, b: usize) -> State<F>
        requires few_a { a ≤ 12 }
        requires few_b { b ≤ 12 }
        ensures holds { opened (sides_of result) ≡ begun a b }
        ensures field { field_of result ≡ field }
    {
        State {
            setting: Setting::new(field),
            automata: Both {
                a: Automaton::blank(a),
                b: Automaton::blank(b),
            },
        }
    }
}
