// Sets of a trace's four leaves.
ghost use Rattle.std.specs.Prelude.{◌≡◌, ◌<◌};
ghost use Rattle.monitor.specs.Monitor.{with as with_slot, without as without_slot, none};
ghost use Rattle.monitor.specs.Layout.{set_of, weight as weight_of};

use ftpl::formulas::Slot;

/// The bit of a slot: bit 0 for First, bit 1 for Second, ..
fn weight(j: Slot) -> usize
    ensures { result ≡ weight_of j }
{
    1 << j as usize
}

/// A set of leaves by its number: First is bit 0, Second is bit 1, ..
#[derive(Clone, Copy)]
pub(crate) struct LeafSet {
    pub(crate) number: usize,
    ghost small: { number < 16 },
}

impl LeafSet {
    /// The empty set.
    pub(crate) fn none() -> LeafSet
        ensures { set_of result.number ≡ none }
    {
        LeafSet { number: 0 }
    }

    /// Whether the leaf in a slot is in the set.
    pub(crate) fn has(self, j: Slot) -> bool
        ensures { result ≡ set_of self.number j }
    {
        self.number / weight(j) % 2 == 1
    }

    /// The set with the leaf in a slot.
    pub(crate) fn with(self, j: Slot) -> LeafSet
        ensures { set_of result.number ≡ with_slot j (set_of self.number) }
    {
        LeafSet {
            number: self.number | weight(j),
        }
    }

    /// The set without the leaf in a slot.
    pub(crate) fn without(self, j: Slot) -> LeafSet
        ensures { set_of result.number ≡ without_slot j (set_of self.number) }
    {
        LeafSet {
            number: self.number & !weight(j),
        }
    }
}
