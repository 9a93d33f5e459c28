// A comparison holds its phase, and the state that its calls declare. One type for all phases, since a call in the wrong phase is
// refused by a number.
use engine::State;
use field::Field;
use session::Phase;

#[derive(Drop)]
pub struct Comparison<F: Field> {
    pub(crate) phase: Phase,
    pub(crate) state: State<F>,
}
