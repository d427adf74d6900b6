// The clauses of a trace: sixteen values, one for each set of the four leaves. For one start the clause of a set is its leaves joined by
// either, over the positions since; overlapping starts are held as both of their clauses.
ghost use Rattle.std.specs.Prelude.{◌≡◌, ◌<◌, cond, []};
ghost use Rattle.monitor.specs.declared.sets.LeafSet.{LeafSet};
ghost use Rattle.monitor.specs.Segments.{leaf};
ghost use Rattle.monitor.specs.Monitor.{Set, with as with_slot, absorb as absorbed, lengthen as lengthened, grown, none, unseen as unseen_by, launch_row};
ghost use Rattle.monitor.specs.Layout.{set_of, clauses};

use crate::sets::LeafSet;
use ftpl::formulas::{Leaf, Leaves, Slot, Trace};
use scale::Scale;
use std::array;

/// The clause of each set.
#[derive(Clone, Copy)]
pub(crate) struct Clauses<S>(pub(crate) [S; 16]);

impl<S: Scale> Clauses<S> {
    /// The clauses that a function gives for each set.
    pub(crate) fn of<F: Fn(LeafSet) -> S>(clause: F) -> Self
        requires { F.IsAlwaysCallable clause }
        ensures { (f : Set → S) → ((c : LeafSet) (x : S) → F.post clause c x → x ≡ f (set_of c.number)) → clauses S.Scale.ops result.0 ≡ f }
    {
        Clauses(array::from_fn(
            |number| -> S
                requires callable { F.IsAlwaysCallable clause }
                requires small { number < 16 }
                ensures { (f : Set → S) → ((c : LeafSet) (x : S) → F.post clause c x → x ≡ f (set_of c.number)) → result ≡ f (set_of number) }
            { clause(LeafSet { number }) },
        ))
    }

    fn at(&self, c: LeafSet) -> S
        ensures { result ≡ clauses S.Scale.ops self.now.0 (set_of c.number) }
    {
        self.0[c.number]
    }

    /// The value of the empty set.
    pub(crate) fn bare(&self) -> S
        ensures { result ≡ clauses S.Scale.ops self.now.0 none }
    {
        self.at(LeafSet::none())
    }

    fn at_leaf(&self, j: Slot) -> Self
        ensures { clauses S.Scale.ops result.0 ≡ (λ c. clauses S.Scale.ops self.now.0 (with_slot j c)) }
    {
        Clauses::of(
            |c: LeafSet| -> S
                ensures { result ≡ clauses S.Scale.ops self.entry.now.0 (with_slot j (set_of c.number)) }
            { self.at(c.with(j)) },
        )
    }

    fn both(&self, other: &Self) -> Self
        ensures { clauses S.Scale.ops result.0 ≡ (λ c. S.Scale.ops.both (clauses S.Scale.ops self.now.0 c) (clauses S.Scale.ops other.now.0 c)) }
    {
        Clauses::of(
            |c: LeafSet| -> S
                ensures { result ≡ S.Scale.ops.both (clauses S.Scale.ops self.entry.now.0 (set_of c.number)) (clauses S.Scale.ops other.entry.now.0 (set_of c.number)) }
            { self.at(c).both(other.at(c)) },
        )
    }

    /// Joins the trace to each of the sixteen values.
    pub(crate) fn absorb(&self, t: &Trace) -> Self
        ensures { clauses S.Scale.ops result.0 ≡ absorbed S.Scale.ops t.now (clauses S.Scale.ops self.now.0) }
    {
        match t {
            Trace::At(j) => self.at_leaf(*j),
            Trace::Both(a, b) => self.absorb(a).both(&self.absorb(b)),
            Trace::Either(a, b) => self.absorb(b).absorb(a),
        }
    }

    fn lengthened_at(&self, j: Slot, l: Leaf, value: S, c: LeafSet) -> S
        ensures { result ≡ lengthened S.Scale.ops j l value (clauses S.Scale.ops self.now.0) (set_of c.number) }
    {
        if c.has(j) {
            grow(l, value, self.at(c), self.at(c.without(j)))
        } else {
            self.at(c)
        }
    }

    /// Goes on by one position, at which the leaf's property has this value.
    pub(crate) fn lengthen(&self, j: Slot, l: Leaf, value: S) -> Self
        ensures { clauses S.Scale.ops result.0 ≡ lengthened S.Scale.ops j l value (clauses S.Scale.ops self.now.0) }
    {
        Clauses::of(
            |c: LeafSet| -> S
                ensures { result ≡ lengthened S.Scale.ops j l value (clauses S.Scale.ops self.entry.now.0) (set_of c.number) }
            { self.lengthened_at(j, l, value, c) },
        )
    }

    fn launched_at(&self, leaves: Leaves, h: S, c: LeafSet) -> S
        ensures { result ≡ launch_row S.Scale.ops leaves h (clauses S.Scale.ops self.now.0) (set_of c.number) }
    {
        self.at(c).both(h.either(unseen(leaves, c)))
    }

    /// Merges a new start, still blank, behind the lock h.
    pub(crate) fn launch(&self, leaves: Leaves, h: S) -> Self
        ensures { clauses S.Scale.ops result.0 ≡ launch_row S.Scale.ops leaves h (clauses S.Scale.ops self.now.0) }
    {
        Clauses::of(
            |c: LeafSet| -> S
                ensures { result ≡ launch_row S.Scale.ops leaves h (clauses S.Scale.ops self.entry.now.0) (set_of c.number) }
            { self.launched_at(leaves, h, c) },
        )
    }
}

fn grow<S: Scale>(l: Leaf, value: S, u: S, w: S) -> S
    ensures { result ≡ grown S.Scale.ops l value u w }
{
    match l {
        Leaf::Always(_) => u.both(w.either(value)),
        Leaf::Eventually(_) => u.either(value),
        Leaf::Never(_) => u.both(w.either(value.turn())),
    }
}

fn rest<S: Scale>(l: Leaf) -> S
    ensures { result ≡ leaf S.Scale.ops l [] }
{
    match l {
        Leaf::Always(_) | Leaf::Never(_) => S::top(),
        Leaf::Eventually(_) => S::bottom(),
    }
}

fn part<S: Scale>(l: Leaf, is_in: bool) -> S
    ensures { result ≡ cond is_in (leaf S.Scale.ops l []) S.Scale.ops.bottom }
{
    if is_in { rest(l) } else { S::bottom() }
}

fn unseen<S: Scale>(leaves: Leaves, c: LeafSet) -> S
    ensures { result ≡ unseen_by S.Scale.ops leaves (set_of c.number) }
{
    let first: S = part(leaves.first, c.has(Slot::First));
    let second: S = part(leaves.second, c.has(Slot::Second));
    let third: S = part(leaves.third, c.has(Slot::Third));
    let fourth: S = part(leaves.fourth, c.has(Slot::Fourth));
    first.either(second).either(third.either(fourth))
}
