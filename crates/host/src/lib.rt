// Rows, refusals, names, and the hosts that hold a table's rows.
#![tactic(auto)]

mod bays;
mod hosts;
mod names;
mod packed;
mod plain;
mod refusals;
mod rows;

pub use bays::Bay;
pub use hosts::{Host, row_at};
pub use names::{NameBytes, is_letter_or_digit, is_name, pack_name, same_name, unpack_name};
pub use packed::{Packed, PackedLent, read_packed, write_packed};
pub use plain::Plain;
pub use refusals::{Refusal, Rule};
pub use rows::{COMPONENT, EMPTY, NONE, PARAMETER, PROVIDED, REQUIRED, Row};
