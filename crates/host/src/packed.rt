ghost use Rattle.std.specs.Prelude.{◌≡◌, ℕ, ◌+◌, ◌*◌, ◌/◌, ◌<◌, ◌≤◌, length, ◌≢◌, slice_index, slice_set, refl};
ghost use Rattle.std.proofs.Common.{◌∙◌};
ghost use Rattle.host.specs.Tables.{Reads, Writes};
ghost use Rattle.host.specs.Packing.{row_in, words_of, put, rows_in, rows_small, Spared, unspent, spared_on};

use crate::hosts::Host;
use crate::refusals::Refusal;
use crate::rows::Row;

// How many rows lie in the words: eight words to a row, at most 255 rows.
fn rows_in(words: &[u32]) -> u8
    ensures { result ≡ length (rows_in words.now) }
{
    (words.len() / 8).min(255) as u8
}

fn unpack_row(words: &[u32], place: u8) -> Row
    requires { 8 * place + 8 ≤ length words.now }
    ensures { result ≡ row_in words.now place }
{
    let at = 8 * place as usize;
    let head = words[at];
    Row {
        kind: (head % 256) as u8,
        owner: (head / 256 % 256) as u8,
        link: (head / 65536 % 256) as u8,
        name: words[at + 1] as u64 * 0x1_0000_0000 + words[at + 2] as u64,
        up: words[at + 3],
        lo: words[at + 4].cast_signed(),
        hi: words[at + 5].cast_signed(),
        value: words[at + 6].cast_signed(),
    }
}

// The seven words of a row; the eighth is spare.
fn pack_row(row: Row) -> [u32; 7]
    ensures { result ≡ words_of row }
{
    [
        row.kind as u32 + 256 * row.owner as u32 + 65536 * row.link as u32,
        (row.name / 0x1_0000_0000) as u32,
        (row.name % 0x1_0000_0000) as u32,
        row.up,
        row.lo.cast_unsigned(),
        row.hi.cast_unsigned(),
        row.value.cast_unsigned(),
    ]
}

/// The row at a place of a packed image.
pub fn read_packed(words: &[u32], place: u8) -> Result<Row, Refusal>
    ensures { Reads (rows_in words.now) place result }
{
    if place < rows_in(words) {
        Ok(unpack_row(words, place))
    } else {
        Err(Refusal::BeyondCapacity)
    }
}

/// Writes a row into a packed image. The words of other rows, every spare word and the words behind the last row stay.
pub fn write_packed(words: &mut [u32], place: u8, row: Row) -> Result<(), Refusal>
    ensures told { Writes (rows_in words.old) place result }
    ensures rows { rows_in words.new ≡ slice_set (rows_in words.old) place row }
    ensures others { (k : ℕ) → (k / 8 ≢ place) → slice_index words.new k ≡ slice_index words.old k }
    ensures spared { Spared words.old words.new }
{
    if place < rows_in(words) {
        let at = 8 * place as usize;
        words[at..at + 7].copy_from_slice(&pack_row(row));
        Ok(())
    } else {
        Err(Refusal::BeyondCapacity)
    }
}

// Stays: two hosts, since a trait of words, owned or lent, would ask as many members of each as `Host` does here.
/// The packed host over words of its own.
#[derive(Drop)]
pub struct Packed {
    pub words: Vec<u32>,
}

impl Host for Packed {
    ghost rows = { λ h. rows_in h.words.items };

    ghost small = { λ h. rows_small h.words.items };

    ghost held = { λ g h. Spared g.words.items h.words.items };

    ghost still = { λ h. unspent h.words.items };

    ghost onward = { λ a b c p q. spared_on p q };

    fn capacity(&self) -> u8 {
        rows_in(&self.words)
    }

    fn read(&self, place: u8) -> Result<Row, Refusal> {
        read_packed(&self.words, place)
    }

    fn write(&mut self, place: u8, row: Row) -> Result<(), Refusal> {
        write_packed(&mut self.words, place, row)
    }
}

/// The packed host over words that are lent.
#[derive(Drop)]
pub struct PackedLent<'a> {
    pub words: &'a mut [u32],
}

impl<'a> Host for PackedLent<'a> {
    ghost rows = { λ h. rows_in h.words.now };

    ghost small = { λ h. rows_small h.words.now };

    ghost held = { λ g h. (h.words.ghost_name ≡ g.words.ghost_name) × Spared g.words.now h.words.now };

    ghost still = { λ h. (refl, unspent h.words.now) };

    ghost onward = { λ a b c p q. (q.0 ∙ p.0, spared_on p.1 q.1) };

    fn capacity(&self) -> u8 {
        rows_in(self.words)
    }

    fn read(&self, place: u8) -> Result<Row, Refusal> {
        read_packed(self.words, place)
    }

    fn write(&mut self, place: u8, row: Row) -> Result<(), Refusal> {
        write_packed(self.words, place, row)
    }
}
