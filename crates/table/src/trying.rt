ghost use Rattle.std.specs.Prelude.{◌≡◌};
ghost use Rattle.table.specs.Rules.{Lawful};
ghost use Rattle.table.specs.Steps.{fresh, row_after, answer, stepped};

use crate::refusing::permit;
use crate::steps::Step;
use host::{COMPONENT, EMPTY, Host, NONE, PARAMETER, PROVIDED, REQUIRED, Refusal, Row, row_at};

/// A new row of a kind, with neither link nor numbers.
fn fresh_row(kind: u8, owner: u8, name: u64) -> Row
    ensures { result ≡ fresh kind owner name }
{
    Row {
        kind,
        name,
        owner,
        ..EMPTY
    }
}

/// The row that a step puts in place of a row.
fn row_after(step: Step, row: Row) -> Row
    ensures { result ≡ row_after step row }
{
    match step {
        Step::New { name, .. } => fresh_row(COMPONENT, NONE, name),
        Step::Provide { owner, name, .. } => fresh_row(PROVIDED, owner, name),
        Step::Require { owner, name, .. } => fresh_row(REQUIRED, owner, name),
        Step::Parameter {
            owner,
            name,
            lo,
            hi,
            value,
            ..
        } => Row {
            kind: PARAMETER,
            name,
            owner,
            lo,
            hi,
            value,
            ..EMPTY
        },
        Step::Delete { .. } => EMPTY,
        Step::Add { owner, .. } => Row { owner, ..row },
        Step::Remove { .. } => Row { owner: NONE, ..row },
        Step::Bind { to, .. } => Row { link: to, ..row },
        Step::Unbind { .. } => Row { link: NONE, ..row },
        Step::Start { .. } => Row { up: 1, ..row },
        Step::Stop { .. } => Row { up: 0, ..row },
        Step::Set { value, .. } => Row { value, ..row },
    }
}

/// Tries a step: it takes effect, or is refused and changes nothing. A lawful table stays lawful.
pub fn try_step<H: Host>(host: &mut H, step: Step) -> Result<(), Refusal>
    ensures answer { result ≡ answer (H.Host.rows host.old) step }
    ensures rows { H.Host.rows host.new ≡ stepped (H.Host.rows host.old) step }
    ensures held { H.Host.held host.old host.new }
    ensures lawful { Lawful (H.Host.rows host.old) → Lawful (H.Host.rows host.new) }
{
    permit(host, step)?;
    let place = step.target();
    let row = row_after(step, row_at(host, place));
    host.write(place, row)
}
