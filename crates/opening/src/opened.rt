// A comparison that is open.
ghost use Rattle.comparison.specs.Comparisons.{session};
ghost use Rattle.session.specs.declared.Phase.TheVariants.{Open};
ghost use Rattle.std.specs.Prelude.{◌≡◌};

use comparison::Comparison;
use field::Field;

#[derive(Drop)]
pub(crate) struct Opened<F: Field> {
    pub(crate) comparison: Comparison<F>,
    ghost is_open: { (session comparison).phase ≡ Open },
}
