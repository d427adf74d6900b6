ghost use Rattle.std.specs.Prelude.{◌≡◌, ◌<◌, ◌≤◌, List, length, slice_set};
ghost use Rattle.host.specs.declared.rows.Row.{Row};
ghost use Rattle.host.specs.Tables.{row_at, Reads, Writes};

use crate::refusals::Refusal;
use crate::rows::{EMPTY, Row};

/// A holder of a table's rows: places 0 to the capacity less 1.
pub trait Host {
    /// the rows, in the order of their places
    ghost rows: { Self → List Row };

    /// there are at most 255
    ghost small: { (h : Self) → length (rows h) ≤ 255 };

    /// what a write leaves as it was beside the other rows, as what lies outside a bay
    ghost held: { Self → Self → Type 0 };

    ghost still: { (h : Self) → held h h };

    ghost onward: { (a b c : Self) → held a b → held b c → held a c };

    fn capacity(&self) -> u8
        ensures { result ≡ length (rows self.now) };

    fn read(&self, place: u8) -> Result<Row, Refusal>
        ensures { Reads (rows self.now) place result };

    fn write(&mut self, place: u8, row: Row) -> Result<(), Refusal>
        ensures told { Writes (rows self.old) place result }
        ensures rows { rows self.new ≡ slice_set (rows self.old) place row }
        ensures held { held self.old self.new };
}

/// The row at a place, and the empty row beyond the capacity.
pub fn row_at<H: Host>(host: &H, place: u8) -> Row
    ensures { result ≡ row_at (H.Host.rows host.now) place }
{
    host.read(place).unwrap_or(EMPTY)
}
