// What has been declared of a comparison.
ghost use Rattle.engine.specs.Open.{opened, sides};
ghost use Rattle.session.specs.Validity.{Valid};
ghost use Rattle.std.proofs.Props.{props};

use automaton::Automaton;
use field::Field;
use side::Both;
use sides::Setting;

// The setting and both automata, which are valid over it.
#[derive(Drop)]
pub struct State<F: Field> {
    pub(crate) setting: Setting<F>,
    pub(crate) automata: Both<Automaton>,
    ghost valid: { Valid (F.Field.model setting.field) (opened (sides setting automata)) } by { Prim.hlevel props },
}
