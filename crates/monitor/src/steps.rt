// What is held of one formula, and one step of it.
// A lock is a value of the scale: bottom is open, top is shut. A start is merged by both behind its lock, `both held (either lock start)`,
// so a shut lock changes nothing, and a second start joins the first and never replaces it.
ghost use Rattle.std.specs.Prelude.{◌≡◌, ℕ, ◌≤◌, length, slice_index_or};
ghost use Rattle.ftpl.specs.Paths.{holds as holds_at};
ghost use Rattle.monitor.specs.Monitor.{happen_row, happen_kept, go_row, held, passed, step_with, shown, begin as begun};
ghost use Rattle.monitor.specs.Layout.{clauses, set_of, viewed, state_of};

use crate::clauses::Clauses;
use crate::sets::LeafSet;
use ftpl::events::holds;
use ftpl::formulas::{Core, Event, EventList, Formula, PerLeaf, Slot};
use scale::Scale;

// Where a formula's values stand behind the sixteen clauses of its part; those from 21 on are not used.
// Stays: places in a slice, since a board is memory that the caller lends.
const KEPT: usize = 16;

const FRESH: usize = 17;

const LOCK_ONE: usize = 18;

const LOCK_TWO: usize = 19;

const LOCK_THREE: usize = 20;

/// What is held of a formula.
#[derive(Clone, Copy)]
pub(crate) struct Held<S> {
    pub(crate) clauses: Clauses<S>,
    /// what `before` has come to
    pub(crate) kept: S,
    /// the lock of the one start at the first position
    pub(crate) fresh: S,
    /// the locks of the up to three `after`s
    pub(crate) one: S,
    pub(crate) two: S,
    pub(crate) three: S,
}

impl<S: Scale> Held<S> {
    /// Before the first position: nothing is held, and the first position starts the formula.
    pub(crate) fn begin() -> Self
        ensures { state_of S.Scale.ops result ≡ begun S.Scale.ops }
    {
        Held {
            clauses: Clauses([S::top(); 16]),
            kept: S::top(),
            fresh: S::bottom(),
            one: S::top(),
            two: S::top(),
            three: S::top(),
        }
    }

    /// What a part of a board holds.
    pub(crate) fn load(cells: &[S]) -> Self
        requires { 21 ≤ length cells.now }
        ensures { state_of S.Scale.ops result ≡ viewed S.Scale.ops cells.now }
    {
        Held {
            clauses: Clauses::of(
                |c: LeafSet| -> S
                    requires { 16 ≤ length cells.now }
                    ensures { result ≡ clauses S.Scale.ops cells.entry.now (set_of c.number) }
                { cells[c.number] },
            ),
            kept: cells[KEPT],
            fresh: cells[FRESH],
            one: cells[LOCK_ONE],
            two: cells[LOCK_TWO],
            three: cells[LOCK_THREE],
        }
    }

    /// Writes it to a part of a board.
    pub(crate) fn store(self, cells: &mut [S])
        requires { 21 ≤ length cells.old }
        ensures held { viewed S.Scale.ops cells.new ≡ state_of S.Scale.ops self }
        ensures rest { (k : ℕ) → 21 ≤ k → slice_index_or cells.new k S.Scale.ops.top ≡ slice_index_or cells.old k S.Scale.ops.top }
    {
        cells[..16].copy_from_slice(&self.clauses.0);
        cells[KEPT] = self.kept;
        cells[FRESH] = self.fresh;
        cells[LOCK_ONE] = self.one;
        cells[LOCK_TWO] = self.two;
        cells[LOCK_THREE] = self.three;
    }

    /// Goes on by one position, at which the leaves have these values and this happened.
    pub(crate) fn advance(self, f: &Formula, values: PerLeaf<S>, event: Option<Event>) -> Self
        ensures { state_of S.Scale.ops result ≡ step_with S.Scale.ops f.now values (λ e. holds_at e event) (state_of S.Scale.ops self) }
    {
        let h1 = pass(f.first, event, self.one, self.fresh);
        let h2 = pass(f.second, event, self.two, h1);
        let h3 = pass(f.third, event, self.three, h2);
        let clauses = go_row(f, h3, values, event, &self.clauses);
        Held {
            clauses,
            kept: happen_kept(&f.core, event, &self.clauses, self.kept),
            fresh: S::top(),
            one: hold(f.first, self.one, self.fresh),
            two: hold(f.second, self.two, h1),
            three: hold(f.third, self.three, h2),
        }
    }

    /// What it comes to.
    pub(crate) fn show(&self, f: &Formula) -> S
        ensures { result ≡ shown S.Scale.ops f.now (state_of S.Scale.ops self.now) }
    {
        match &f.core {
            Core::Plain(t) => self.clauses.absorb(t).bare(),
            Core::Before(_, _) => self.kept,
            Core::Until(_, _) => self.clauses.bare(),
        }
    }
}

/// The lock of an `after` once the lock before it is h.
fn hold<S: Scale>(o: Option<EventList>, a: S, h: S) -> S
    ensures { result ≡ held S.Scale.ops o a h }
{
    match o {
        None => a,
        Some(_) => a.both(h),
    }
}

/// The lock behind an `after`: open where its event happens and a start waits.
fn pass<S: Scale>(o: Option<EventList>, event: Option<Event>, a: S, h: S) -> S
    ensures { result ≡ passed S.Scale.ops o (λ e. holds_at e event) a h }
{
    match o {
        None => h,
        Some(e) if holds(e, event) => a.both(h),
        Some(_) => S::top(),
    }
}

/// What the core's event does to the clauses of the starts so far: `until` joins the trace to each.
fn happen_row<S: Scale>(core: &Core, event: Option<Event>, w: &Clauses<S>) -> Clauses<S>
    ensures { clauses S.Scale.ops result.0 ≡ happen_row S.Scale.ops core.now (λ e. holds_at e event) (clauses S.Scale.ops w.now.0) }
{
    match core {
        Core::Until(t, e) if holds(*e, event) => w.absorb(t),
        Core::Plain(_) | Core::Before(_, _) | Core::Until(_, _) => *w,
    }
}

/// What the core's event does to the value kept: `before` takes the trace over the positions before.
fn happen_kept<S: Scale>(core: &Core, event: Option<Event>, w: &Clauses<S>, kept: S) -> S
    ensures { result ≡ happen_kept S.Scale.ops core.now (λ e. holds_at e event) (clauses S.Scale.ops w.now.0) kept }
{
    match core {
        Core::Before(e, t) if holds(*e, event) => kept.both(w.absorb(t).bare()),
        Core::Plain(_) | Core::Before(_, _) | Core::Until(_, _) => kept,
    }
}

/// The clauses after one position: the event on the starts so far, then the new start, then the position itself.
fn go_row<S: Scale>(
    f: &Formula,
    h: S,
    values: PerLeaf<S>,
    event: Option<Event>,
    w: &Clauses<S>,
) -> Clauses<S>
    ensures { clauses S.Scale.ops result.0 ≡ go_row S.Scale.ops f.now.leaves f.now.core h values (λ e. holds_at e event) (clauses S.Scale.ops w.now.0) }
{
    happen_row(&f.core, event, w)
        .launch(f.leaves, h)
        .lengthen(Slot::First, f.leaves.first, values.first)
        .lengthen(Slot::Second, f.leaves.second, values.second)
        .lengthen(Slot::Third, f.leaves.third, values.third)
        .lengthen(Slot::Fourth, f.leaves.fourth, values.fourth)
}
