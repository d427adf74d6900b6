// What a reader of a part of a rule answers.
ghost use Rattle.std.specs.Prelude.{◌≡◌, MatchResult};
ghost use Rattle.book_text.specs.declared.parts.Stop.TheVariants.{Memory};
ghost use Rattle.book_text.specs.Rules.{form, turned, joined, either};

use ftpl::properties::Tests;
use std::alloc::{AllocError, AllocFailed, Global};

/// Why a reader stopped.
#[derive(Clone, Copy, PartialEq, Eq, Debug)]
pub enum Stop {
    /// The word at this index cannot stand there.
    Wrong(usize),
    Memory,
}

impl From<AllocError> for Stop {
    ghost from_gives = { λ _ e. e ≡ Memory };

    fn from(_error: AllocError) -> Stop {
        Stop::Memory
    }
}

impl<T: Drop> From<AllocFailed<T>> for Stop {
    ghost from_gives = { λ _ e. e ≡ Memory };

    fn from(_error: AllocFailed<T>) -> Self {
        Self::Memory
    }
}

/// Tests that were read, the index behind them, and how many tests the rule has had so far.
#[derive(Drop)]
pub(crate) struct Part {
    pub tests: Tests,
    pub next: usize,
    pub count: u8,
}

pub(crate) fn not_of(heap: Global, inner: Tests) -> Result<Tests, Stop>
    ensures { MatchResult result (λ t. form t ≡ turned (form inner)) (λ e. e ≡ Memory) }
{
    Ok(Tests::Not(Box::new(heap, inner)?))
}

pub(crate) fn both_of(heap: Global, left: Tests, right: Tests) -> Result<Tests, Stop>
    ensures { MatchResult result (λ t. form t ≡ joined (form left) (form right)) (λ e. e ≡ Memory) }
{
    Ok(Tests::Both(Box::new(heap, left)?, Box::new(heap, right)?))
}

pub(crate) fn either_of(heap: Global, left: Tests, right: Tests) -> Result<Tests, Stop>
    ensures { MatchResult result (λ t. form t ≡ either (form left) (form right)) (λ e. e ≡ Memory) }
{
    Ok(Tests::Either(Box::new(heap, left)?, Box::new(heap, right)?))
}
