// A formula up to the end of the line.
use ftpl::formulas::{Core, Formula, Leaves};

/// What was read of a formula behind its `after`s, and the index behind the end of the line.
#[derive(Drop)]
pub(crate) struct Ending {
    pub core: Core,
    pub leaves: Leaves,
    pub next: usize,
}

/// A formula that was read, and the index behind the end of the line.
#[derive(Drop)]
pub(crate) struct Line {
    pub formula: Formula,
    pub next: usize,
}
