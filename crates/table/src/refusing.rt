ghost use Rattle.std.specs.Prelude.{◌≡◌, ◌≢◌, ◌⊎◌, ◌≤ℤ◌, Decides};
ghost use Rattle.host.specs.Tables.{row_at};
ghost use Rattle.host.specs.Names.{IsName};
ghost use Rattle.table.specs.Rules.{InRange};
ghost use Rattle.table.specs.Places.{component, none, kind_at, owner_at, link_at};
ghost use Rattle.table.specs.Conditions.{started};
ghost use Rattle.table.specs.Refusals.{beyond, wrong_rows, out_of_range, tied, running, in_use, loop, taken};
ghost use Rattle.table.specs.Steps.{answer};

use crate::places::{
    borne, interface_linked, joinable, link_of_another, owns, owns_another, reaches,
};
use crate::rules::in_range;
use crate::steps::Step;
use host::{COMPONENT, Host, NONE, PARAMETER, PROVIDED, REQUIRED, Refusal, is_name, row_at};

/// Whether a place that the step names lies beyond the capacity.
// Stays: functions of a host and a step, as `try_step` is given them; a struct of the two would be taken apart in each.
fn is_beyond<H: Host>(host: &H, step: Step) -> bool
    ensures { Decides result (beyond (H.Host.rows host.now) step).holds }
{
    let end = host.capacity();
    match step {
        Step::Provide { at, owner, .. }
        | Step::Require { at, owner, .. }
        | Step::Parameter { at, owner, .. }
        | Step::Add { at, owner } => end <= at || end <= owner,
        Step::Bind { at, to } => end <= at || end <= to,
        _ => end <= step.target(),
    }
}

/// The kind of the row at a place.
fn kind_at<H: Host>(host: &H, place: u8) -> u8
    ensures { result ≡ kind_at (H.Host.rows host.now) place }
{
    row_at(host, place).kind
}

/// Whether the rows are not as the step needs them.
fn has_wrong_rows<H: Host>(host: &H, step: Step) -> bool
    ensures { Decides result (wrong_rows (H.Host.rows host.now) step).holds }
{
    match step {
        Step::New { at, .. } => kind_at(host, at) != 0,
        Step::Provide { at, owner, .. }
        | Step::Require { at, owner, .. }
        | Step::Parameter { at, owner, .. } => {
            kind_at(host, at) != 0 || kind_at(host, owner) != COMPONENT
        }
        Step::Delete { at } => kind_at(host, at) == 0,
        Step::Add { at, owner } => {
            kind_at(host, at) != COMPONENT || kind_at(host, owner) != COMPONENT
        }
        Step::Remove { at } | Step::Start { at } | Step::Stop { at } => {
            kind_at(host, at) != COMPONENT
        }
        Step::Bind { at, to } => kind_at(host, at) != PROVIDED || kind_at(host, to) != REQUIRED,
        Step::Unbind { at } => kind_at(host, at) != PROVIDED,
        Step::Set { at, .. } => kind_at(host, at) != PARAMETER,
    }
}

/// Whether a parameter may have a name and numbers.
fn is_sound(name: u64, lo: i32, hi: i32, value: i32) -> bool
    ensures { Decides result (IsName name × InRange lo hi value) }
{
    is_name(name) && in_range(lo, hi, value)
}

/// Whether the name has not the form of a name, or a number is out of range.
fn is_out_of_range<H: Host>(host: &H, step: Step) -> bool
    ensures { Decides result (out_of_range (H.Host.rows host.now) step).holds }
{
    match step {
        Step::New { name, .. } | Step::Provide { name, .. } | Step::Require { name, .. } =>
            !is_name(name),
        Step::Parameter {
            name,
            lo,
            hi,
            value,
            ..
        } => !is_sound(name, lo, hi, value),
        Step::Set { at, value } => is_outside(host, at, value),
        _ => false,
    }
}

/// Whether a value lies outside the range of the row at a place.
fn is_outside<H: Host>(host: &H, place: u8, value: i32) -> bool
    ensures { Decides result (((row_at (H.Host.rows host.now) place).lo ≤ℤ value) × (value ≤ℤ (row_at (H.Host.rows host.now) place).hi) → ⊥) }
{
    let row = row_at(host, place);
    value < row.lo || row.hi < value
}

/// Whether what shall be joined is joined already or may not be joined, or what shall be parted is not joined.
fn is_tied<H: Host>(host: &H, step: Step) -> bool
    ensures { Decides result (tied (H.Host.rows host.now) step).holds }
{
    match step {
        Step::Parameter { owner, .. } => owns(host, owner, COMPONENT),
        Step::Add { at, owner } => row_at(host, at).owner != NONE || owns(host, owner, PARAMETER),
        Step::Remove { at } => row_at(host, at).owner == NONE,
        Step::Bind { at, to } => row_at(host, at).link != NONE || !joinable(host, at, to),
        Step::Unbind { at } => row_at(host, at).link == NONE,
        _ => false,
    }
}

/// Whether the row at a place is that of a started component.
fn is_started<H: Host>(host: &H, place: u8) -> bool
    ensures { Decides result (started (H.Host.rows host.now) place).holds }
{
    row_at(host, place).up == 1
}

/// Whether the owner of the row at a place is started.
fn is_owner_started<H: Host>(host: &H, place: u8) -> bool
    ensures { Decides result (started (H.Host.rows host.now) (owner_at (H.Host.rows host.now) place)).holds }
{
    is_started(host, row_at(host, place).owner)
}

/// Whether a component that has to be stopped is started.
fn is_running<H: Host>(host: &H, step: Step) -> bool
    ensures { Decides result (running (H.Host.rows host.now) step).holds }
{
    match step {
        Step::Provide { owner, .. }
        | Step::Require { owner, .. }
        | Step::Parameter { owner, .. }
        | Step::Add { owner, .. } => is_started(host, owner),
        Step::Delete { at } => {
            is_started(host, at) || (kind_at(host, at) != COMPONENT && is_owner_started(host, at))
        }
        Step::Remove { at: place } | Step::Bind { to: place, .. } => is_owner_started(host, place),
        Step::Unbind { at } => is_owner_started(host, row_at(host, at).link),
        _ => false,
    }
}

/// Whether a row leads on or is a component in another.
fn is_attached<H: Host>(host: &H, place: u8) -> bool
    ensures { Decides result ((link_at (H.Host.rows host.now) place ≢ none) ⊎ ((kind_at (H.Host.rows host.now) place ≡ component) × (owner_at (H.Host.rows host.now) place ≢ none))) }
{
    let row = row_at(host, place);
    row.link != NONE || (row.kind == COMPONENT && row.owner != NONE)
}

/// Whether the row at a place may not be emptied, since it is joined to others.
fn is_joined<H: Host>(host: &H, place: u8) -> bool
    ensures { Decides result (in_use (H.Host.rows host.now) (Step.Delete place)).holds }
{
    owns_another(host, place) || link_of_another(host, place) || is_attached(host, place)
}

/// Whether other rows lean on the row that shall go.
fn is_in_use<H: Host>(host: &H, step: Step) -> bool
    ensures { Decides result (in_use (H.Host.rows host.now) step).holds }
{
    match step {
        Step::Delete { at } => is_joined(host, at),
        Step::Remove { at } => interface_linked(host, at),
        _ => false,
    }
}

/// Whether a component would own itself.
fn makes_loop<H: Host>(host: &H, step: Step) -> bool
    ensures { Decides result (loop (H.Host.rows host.now) step).holds }
{
    match step {
        Step::Add { at, owner } => reaches(host, owner, at),
        _ => false,
    }
}

/// Whether another filled row with the owner that the row shall have bears the name that it shall have.
fn is_taken<H: Host>(host: &H, step: Step) -> bool
    ensures { Decides result (taken (H.Host.rows host.now) step).holds }
{
    let end = host.capacity();
    match step {
        Step::New { at, name } => borne(host, end, at, NONE, name),
        Step::Provide { at, owner, name }
        | Step::Require { at, owner, name }
        | Step::Parameter {
            at,
            owner,
            name,
            ..
        } => borne(host, end, at, owner, name),
        Step::Add { at, owner } => borne(host, end, at, owner, row_at(host, at).name),
        Step::Remove { at } => borne(host, end, at, NONE, row_at(host, at).name),
        _ => false,
    }
}

/// Whether a step is permitted; if not, why: the first condition that holds.
pub(crate) fn permit<H: Host>(host: &H, step: Step) -> Result<(), Refusal>
    ensures { result ≡ answer (H.Host.rows host.now) step }
{
    if is_beyond(host, step) {
        Err(Refusal::BeyondCapacity)
    } else if has_wrong_rows(host, step) {
        Err(Refusal::WrongRow)
    } else if is_out_of_range(host, step) {
        Err(Refusal::OutOfRange)
    } else if is_tied(host, step) {
        Err(Refusal::Tied)
    } else if is_running(host, step) {
        Err(Refusal::Running)
    } else if is_in_use(host, step) {
        Err(Refusal::InUse)
    } else if makes_loop(host, step) {
        Err(Refusal::OwnerLoop)
    } else if is_taken(host, step) {
        Err(Refusal::NameTaken)
    } else {
        Ok(())
    }
}
