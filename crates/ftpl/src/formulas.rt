// What an event, a trace and a formula are.
ghost use Rattle.std.specs.Prelude.{◌≡◌};
ghost use Rattle.ftpl.specs.Formulas.{leaf_at};

/// How an operation is recorded on the path.
#[derive(Clone, Copy, PartialEq, Eq, Debug)]
pub enum EventKind {
    /// it was opened
    Called,
    /// it ended normally
    Normal,
    /// it ended exceptionally
    Exceptional,
}

/// What happened at a position of the path.
#[derive(Clone, Copy, PartialEq, Eq, Debug)]
pub struct Event {
    /// 0 to 63
    pub operation: u8,
    pub kind: EventKind,
}

/// A list of events of the operations 1 to 63: bit k of a mask stands for operation k, bit 0 for none.
/// `terminates` is both normal and exceptional.
#[derive(Clone, Copy, PartialEq, Eq, Debug)]
pub struct EventList {
    pub called: u64,
    pub normal: u64,
    pub exceptional: u64,
}

/// What a leaf of a trace says of the property with this number, from 1.
#[derive(Clone, Copy, PartialEq, Eq, Debug)]
pub enum Leaf {
    Always(u8),
    Eventually(u8),
    Never(u8),
}

/// One of the four leaves of a trace.
#[derive(Clone, Copy, PartialEq, Eq, Debug)]
pub enum Slot {
    First,
    Second,
    Third,
    Fourth,
}

/// What is given for each of the four leaves of a trace.
#[derive(Clone, Copy, PartialEq, Eq, Debug)]
pub struct PerLeaf<T> {
    pub first: T,
    pub second: T,
    pub third: T,
    pub fourth: T,
}

/// The four leaves of a trace; what a slot that the trace does not name holds is of no account.
pub type Leaves = PerLeaf<Leaf>;

impl<T: Copy> PerLeaf<T> {
    /// What is given for the leaf in this slot.
    pub fn at(&self, slot: Slot) -> T
        ensures { result ≡ leaf_at self.now slot }
    {
        match slot {
            Slot::First => self.first,
            Slot::Second => self.second,
            Slot::Third => self.third,
            Slot::Fourth => self.fourth,
        }
    }
}

/// How the leaves are joined: `&` is both, `|` is either.
#[derive(PartialEq, Eq, Debug, Drop)]
pub enum Trace {
    At(Slot),
    Both(Box<Trace>, Box<Trace>),
    Either(Box<Trace>, Box<Trace>),
}

/// What a formula says behind its `after`s.
#[derive(PartialEq, Eq, Debug, Drop)]
pub enum Core {
    /// `T`
    Plain(Trace),
    /// `before E T`
    Before(EventList, Trace),
    /// `T until E`
    Until(Trace, EventList),
}

/// Up to three `after E`, the outermost first, then the core.
#[derive(PartialEq, Eq, Debug, Drop)]
pub struct Formula {
    pub first: Option<EventList>,
    pub second: Option<EventList>,
    pub third: Option<EventList>,
    pub core: Core,
    pub leaves: Leaves,
}
