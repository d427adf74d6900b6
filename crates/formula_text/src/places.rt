// Where a reader of a trace stands, and what it has read.
ghost use Rattle.std.specs.Prelude.{◌≡◌, MatchResult};
ghost use Rattle.book_text.specs.declared.parts.Stop.TheVariants.{Memory};
ghost use Rattle.formula_text.specs.Rules.{slot_at, shape, joined, either as either_of};
ghost use Rattle.formula_text.specs.Took.{put_leaf};

use book_text::Stop;
use ftpl::formulas::{Leaf, Leaves, Slot, Trace};
use std::alloc::Global;

/// The index of the next word, how many leaves stood before it, and these.
#[derive(Clone, Copy, PartialEq, Eq, Debug)]
pub(crate) struct Place {
    pub at: usize,
    pub count: u8,
    pub leaves: Leaves,
}

/// A trace that was read, and the place behind it.
#[derive(Drop)]
pub(crate) struct Part {
    pub trace: Trace,
    pub place: Place,
}

pub(crate) fn slot_at(count: u8) -> Slot
    ensures { result ≡ slot_at count }
{
    match count {
        0 => Slot::First,
        1 => Slot::Second,
        2 => Slot::Third,
        _ => Slot::Fourth,
    }
}

/// The leaves with one more. The first stands in all four slots until others take them.
pub(crate) fn put_leaf(leaves: Leaves, count: u8, leaf: Leaf) -> Leaves
    ensures { result ≡ put_leaf leaves count leaf }
{
    match count {
        0 => Leaves {
            first: leaf,
            second: leaf,
            third: leaf,
            fourth: leaf,
        },
        1 => Leaves {
            second: leaf,
            ..leaves
        },
        2 => Leaves {
            third: leaf,
            ..leaves
        },
        _ => Leaves {
            fourth: leaf,
            ..leaves
        },
    }
}

// Stays: twins of those in `book_text` in shape alone, as `either` and `both` of the reader.
pub(crate) fn both_of(heap: Global, left: Trace, right: Trace) -> Result<Trace, Stop>
    ensures { MatchResult result (λ t. shape t ≡ joined (shape left) (shape right)) (λ e. e ≡ Memory) }
{
    Ok(Trace::Both(Box::new(heap, left)?, Box::new(heap, right)?))
}

pub(crate) fn either_of(heap: Global, left: Trace, right: Trace) -> Result<Trace, Stop>
    ensures { MatchResult result (λ t. shape t ≡ either_of (shape left) (shape right)) (λ e. e ≡ Memory) }
{
    Ok(Trace::Either(Box::new(heap, left)?, Box::new(heap, right)?))
}
