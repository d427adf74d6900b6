ghost use Rattle.std.specs.Prelude.{◌≡◌, Decides};
ghost use Rattle.table.specs.Rules.{KindKnown, FieldsFit, R3, R4, R5, R6, R7, R8, R10, InRange, Keeps, WrongAt, Checked};
ghost use Rattle.table.specs.Verdicts.{verdict};

use crate::breaches::Breach;
use crate::places::{borne, joinable, owns, reaches};
use host::{
    COMPONENT, EMPTY, Host, NONE, PARAMETER, PROVIDED, REQUIRED, Row, Rule, is_name, row_at,
};

/// The ten rules in the order of their numbers.
const RULES: [Rule; 10] = [
    Rule::KnownKind,
    Rule::OwnFields,
    Rule::NameForm,
    Rule::OwnerIsComponent,
    Rule::ParameterOwner,
    Rule::Range,
    Rule::LinkEnd,
    Rule::LinkOwners,
    Rule::OwnersEnd,
    Rule::OwnName,
];

/// R1: the kind is 0 to 4, and a row of kind 0 is the empty row.
fn kind_known(row: Row) -> bool
    ensures { Decides result (KindKnown row) }
{
    row == EMPTY || matches!(row.kind, COMPONENT..=PARAMETER)
}

/// R2: link, range, value and up only where the kind has them.
fn fields_fit(row: Row) -> bool
    ensures { Decides result (FieldsFit row) }
{
    (row.kind == PROVIDED || row.link == NONE)
        && (row.kind == PARAMETER || (row.lo == 0 && row.hi == 0 && row.value == 0))
        && (row.up == 0 || (row.kind == COMPONENT && row.up == 1))
}

/// R3: a filled row's name has the form of a name.
fn name_formed<H: Host>(host: &H, place: u8) -> bool
    ensures { Decides result (R3 (H.Host.rows host.now) place) }
{
    let row = row_at(host, place);
    row.kind == 0 || is_name(row.name)
}

/// R4: a filled row's owner is a component; a component may have none.
fn owner_is_component<H: Host>(host: &H, place: u8) -> bool
    ensures { Decides result (R4 (H.Host.rows host.now) place) }
{
    let row = row_at(host, place);
    let owner = row_at(host, row.owner);
    row.kind == 0 || owner.kind == COMPONENT || (row.kind == COMPONENT && row.owner == NONE)
}

/// R5: a parameter's owner owns no component.
fn parameter_alone<H: Host>(host: &H, place: u8) -> bool
    ensures { Decides result (R5 (H.Host.rows host.now) place) }
{
    let row = row_at(host, place);
    row.kind != PARAMETER || !owns(host, row.owner, COMPONENT)
}

/// −1,000,000 ≤ lo ≤ value ≤ hi ≤ 1,000,000
pub(crate) fn in_range(lo: i32, hi: i32, value: i32) -> bool
    ensures { Decides result (InRange lo hi value) }
{
    -1_000_000 <= lo && lo <= value && value <= hi && hi <= 1_000_000
}

/// R6: a parameter's numbers are in range.
fn range_kept<H: Host>(host: &H, place: u8) -> bool
    ensures { Decides result (R6 (H.Host.rows host.now) place) }
{
    let row = row_at(host, place);
    row.kind != PARAMETER || in_range(row.lo, row.hi, row.value)
}

/// R7: a link leads to a required interface.
fn link_ends<H: Host>(host: &H, place: u8) -> bool
    ensures { Decides result (R7 (H.Host.rows host.now) place) }
{
    let link = row_at(host, place).link;
    let end = row_at(host, link);
    link == NONE || end.kind == REQUIRED
}

/// R8: the owners of two linked interfaces differ and have one same component as owner.
fn link_joins<H: Host>(host: &H, place: u8) -> bool
    ensures { Decides result (R8 (H.Host.rows host.now) place) }
{
    let link = row_at(host, place).link;
    link == NONE || joinable(host, place, link)
}

/// R10: no lower filled place with the same owner has the same name.
fn name_alone<H: Host>(host: &H, place: u8) -> bool
    ensures { Decides result (R10 (H.Host.rows host.now) place) }
{
    let row = row_at(host, place);
    row.kind == 0 || !borne(host, place, place, row.owner, row.name)
}

/// Whether a rule is kept at a place.
fn keeps<H: Host>(host: &H, place: u8, rule: Rule) -> bool
    ensures { Decides result (Keeps rule (H.Host.rows host.now) place) }
{
    match rule {
        Rule::KnownKind => kind_known(row_at(host, place)),
        Rule::OwnFields => fields_fit(row_at(host, place)),
        Rule::NameForm => name_formed(host, place),
        Rule::OwnerIsComponent => owner_is_component(host, place),
        Rule::ParameterOwner => parameter_alone(host, place),
        Rule::Range => range_kept(host, place),
        Rule::LinkEnd => link_ends(host, place),
        Rule::LinkOwners => link_joins(host, place),
        Rule::OwnersEnd => reaches(host, place, NONE),
        Rule::OwnName => name_alone(host, place),
    }
}

/// The lowest rule that is broken at a place.
fn wrong_at<H: Host>(host: &H, place: u8) -> Option<Rule>
    ensures { WrongAt (H.Host.rows host.now) place result }
{
    RULES
        .iter()
        .copied()
        .find(|&rule| !keeps(host, place, rule))
}

/// Whether a table is lawful; if not, the lowest place that breaks a rule and the lowest rule broken there.
pub fn check<H: Host>(host: &H) -> Result<(), Breach>
    ensures finds { Checked (H.Host.rows host.now) result }
    ensures verdict { result ≡ verdict (H.Host.rows host.now) }
{
    for place in 0..host.capacity() {
        if let Some(rule) = wrong_at(host, place) {
            return Err(Breach { place, rule });
        }
    }
    Ok(())
}
