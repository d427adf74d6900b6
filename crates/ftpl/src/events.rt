// Which events an event list holds at.
ghost use Rattle.std.specs.Prelude.{◌≡◌};
ghost use Rattle.ftpl.specs.Paths.{listed, mask_of, holds as holds_at};

use crate::formulas::{Event, EventKind, EventList};

fn mask_of(list: EventList, kind: EventKind) -> u64
    ensures { result ≡ mask_of list kind }
{
    match kind {
        EventKind::Called => list.called,
        EventKind::Normal => list.normal,
        EventKind::Exceptional => list.exceptional,
    }
}

fn is_listed(mask: u64, operation: u8) -> bool
    ensures { result ≡ listed mask operation }
{
    (1..=63).contains(&operation) && (mask >> operation) % 2 == 1
}

/// Whether one of the listed events is what happened.
pub fn holds(list: EventList, event: Option<Event>) -> bool
    ensures { result ≡ holds_at list event }
{
    event.is_some_and(|happened| is_listed(mask_of(list, happened.kind), happened.operation))
}
