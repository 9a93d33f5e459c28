// A run of cases.
use tally::Tally;

// Where the cases are printed, and how many there were. `cases` has a struct of these two fields too: one of `tally` could
// not have this program's methods (no `impl` for a type of another crate), and functions that are passed it are no plainer.
#[derive(Drop)]
pub struct Run<'a> {
    pub rt: &'a HostRuntime,
    pub tally: Tally,
}

impl<'a> Run<'a> {
    pub fn new(rt: &'a HostRuntime) -> Run<'a> {
        Run {
            rt,
            tally: Tally::new(),
        }
    }
}
