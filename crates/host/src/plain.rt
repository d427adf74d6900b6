ghost use Rattle.std.specs.Prelude.{◌≡◌, length, replicate};
ghost use Rattle.host.specs.Tables.{empty_row, long_small};

use crate::hosts::Host;
use crate::refusals::Refusal;
use crate::rows::{EMPTY, Row};

/// The plain host: 255 rows of its own.
#[derive(Drop)]
pub struct Plain {
    rows: [Row; 255],
    ghost long: { length rows ≡ 255 },
}

impl Plain {
    /// A fresh one, all rows empty.
    pub fn new() -> Plain
        ensures { result.rows ≡ replicate 255 empty_row }
    {
        Plain { rows: [EMPTY; 255] }
    }
}

impl Host for Plain {
    ghost rows = { λ h. h.rows };

    ghost small = { λ h. long_small h.rows h.long };

    ghost held = { λ _ _. Unit {0} };

    ghost still = { λ _. tt };

    ghost onward = { λ _ _ _ _ _. tt };

    fn capacity(&self) -> u8 {
        255
    }

    fn read(&self, place: u8) -> Result<Row, Refusal> {
        self.rows
            .get(place as usize)
            .copied()
            .ok_or(Refusal::BeyondCapacity)
    }

    fn write(&mut self, place: u8, row: Row) -> Result<(), Refusal> {
        if place >= self.capacity() {
            return Err(Refusal::BeyondCapacity);
        }
        self.rows[place as usize] = row;
        Ok(())
    }
}
