// The state counts that begin a comparison.
ghost use Rattle.std.specs.Prelude.{◌≤◌};

// How many states each side has: 1 to 12.
#[derive(Clone, Copy)]
pub struct Counts {
    pub(crate) a: usize,
    pub(crate) b: usize,
    ghost some_a: { 1 ≤ a },
    ghost few_a: { a ≤ 12 },
    ghost some_b: { 1 ≤ b },
    ghost few_b: { b ≤ 12 },
}
