// A basis of the vectors kept so far, in echelon form: it tells whether a further vector depends on them. Over any field.
#![tactic(auto)]

ghost use Rattle.std.specs.Prelude.{◌≤◌};

use elimination::Row;
use table::Table;

mod insertion;

// Rows for vectors of so many places. At the pivot of a row the later rows are zero.
#[derive(Clone, Copy)]
pub struct Basis {
    pub(crate) rows: Table<Row, 24>,
    pub(crate) width: usize,
    ghost narrow: { width ≤ 24 },
}
