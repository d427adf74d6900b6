ghost use Rattle.std.specs.Prelude.{◌≡◌, ℕ, ◌<◌, ◌≤◌, not, ◌==◌, count_by, Decides};
ghost use Rattle.table.specs.Places.{Owns, OwnsAnother, LinkOfAnother, LinkedInterface, InterfaceLinked, Bears, Borne, Reaches, Joinable};

use host::{COMPONENT, Host, NONE, PROVIDED, REQUIRED, row_at, same_name};

/// Whether some row of a kind has `owner` as owner.
pub(crate) fn owns<H: Host>(host: &H, owner: u8, kind: u8) -> bool
    ensures { Decides result (Owns (H.Host.rows host.now) owner kind) }
{
    (0..host.capacity()).any(|q| {
        let row = row_at(host, q);
        row.kind == kind && row.owner == owner
    })
}

/// Whether another row has `place` as owner.
pub(crate) fn owns_another<H: Host>(host: &H, place: u8) -> bool
    ensures { Decides result (OwnsAnother (H.Host.rows host.now) place) }
{
    (0..host.capacity()).any(|q| q != place && row_at(host, q).owner == place)
}

/// Whether another row has `place` as link.
pub(crate) fn link_of_another<H: Host>(host: &H, place: u8) -> bool
    ensures { Decides result (LinkOfAnother (H.Host.rows host.now) place) }
{
    (0..host.capacity()).any(|q| q != place && row_at(host, q).link == place)
}

/// Whether the row at `q` is an interface of `owner` that has a link or is another's link.
fn is_linked_interface<H: Host>(host: &H, owner: u8, q: u8) -> bool
    ensures { Decides result (LinkedInterface (H.Host.rows host.now) owner q) }
{
    let row = row_at(host, q);
    row.owner == owner
        && (row.kind == PROVIDED || row.kind == REQUIRED)
        && (row.link != NONE || link_of_another(host, q))
}

/// Whether an interface of the row at `place` has a link or is another's link.
pub(crate) fn interface_linked<H: Host>(host: &H, place: u8) -> bool
    ensures { Decides result (InterfaceLinked (H.Host.rows host.now) place) }
{
    (0..host.capacity()).any(|q| is_linked_interface(host, place, q))
}

/// Whether the row at `q` is filled, has `owner` as owner and bears `name`.
fn bears<H: Host>(host: &H, q: u8, owner: u8, name: u64) -> bool
    ensures { Decides result (Bears (H.Host.rows host.now) q owner name) }
{
    let row = row_at(host, q);
    row.kind != 0 && row.owner == owner && same_name(row.name, name)
}

/// Whether some place below `end` other than `place` bears `name` under `owner`.
pub(crate) fn borne<H: Host>(host: &H, end: u8, place: u8, owner: u8, name: u64) -> bool
    ensures { Decides result (Borne (H.Host.rows host.now) end place owner name) }
{
    (0..end).any(|q| q != place && bears(host, q, owner, name))
}

/// Whether going from owner to owner, from `place` on, comes to `goal`. Where it comes there at all,
/// it does so within one climb more than the table has rows.
pub(crate) fn reaches<H: Host>(host: &H, place: u8, goal: u8) -> bool
    ensures { Decides result (Reaches (H.Host.rows host.now) place goal) }
{
    let mut here = place;
    for _climbs in 0..257u16 {
        if here == goal {
            return true;
        }
        here = row_at(host, here).owner;
    }
    false
}

/// Whether the owners of `a` and `b` differ and have one same component as owner.
pub(crate) fn joinable<H: Host>(host: &H, a: u8, b: u8) -> bool
    ensures { Decides result (Joinable (H.Host.rows host.now) a b) }
{
    let owner_a = row_at(host, a).owner;
    let owner_b = row_at(host, b).owner;
    let above_a = row_at(host, owner_a).owner;
    let above_b = row_at(host, owner_b).owner;
    owner_a != owner_b && above_a == above_b && row_at(host, above_a).kind == COMPONENT
}

/// How many rows of a host are filled.
pub fn filled_rows<H: Host>(host: &H) -> usize
    ensures { result ≡ count_by (λ row. not (row.kind == 0)) (H.Host.rows host.now) }
{
    (0..host.capacity())
        .filter(|&place| row_at(host, place).is_filled())
        .count()
}
