ghost use Rattle.std.specs.Prelude.{◌≡◌, map, length, Decides, OnOk};
ghost use Rattle.std.specs.List.{range_with_len};
ghost use Rattle.host.specs.Tables.{row_at};
ghost use Rattle.table_text.specs.Lines.{text_of_table};
ghost use Rattle.table_text.specs.Placed.{Within, Placed};

use host::{EMPTY, Host, Refusal, Row};

fn row_or_empty(table: &[Row], place: u8) -> Row
    ensures { result ≡ row_at table.now place }
{
    table.get(place as usize).copied().unwrap_or(EMPTY)
}

/// Whether every filled row of a table has a place below the capacity.
pub fn is_within(table: &[Row], capacity: u8) -> bool
    ensures { Decides result (Within table.now capacity) }
{
    table
        .iter()
        .skip(capacity as usize)
        .all(|row| !row.is_filled())
}

/// Puts the rows of a table into a host; places that the table does not have become empty.
/// The host then has the table's text. Where a filled row has a place beyond the host, refusal 2, and nothing has changed.
pub fn put_table<H: Host>(table: &[Row], host: &mut H) -> Result<(), Refusal>
    ensures rows { Placed table.now (H.Host.rows host.old) result (H.Host.rows host.new) }
    ensures text { OnOk result (text_of_table (H.Host.rows host.new) ≡ text_of_table table.now) }
    ensures held { H.Host.held host.old host.new }
{
    let capacity = host.capacity();
    if !is_within(table, capacity) {
        return Err(Refusal::BeyondCapacity);
    }
    for place in 0..capacity {
        host.write(place, row_or_empty(table, place))?;
    }
    Ok(())
}
