// The sled's program: reads a rack's table from a text, puts it into the sled's packed image through its bay,
// says whether it is lawful, reads it back and writes it as text again.
#![tactic(auto)]

use anyhow::{anyhow, bail};
use host::{Bay, Host, Packed, Refusal, Row};
use std::{env, fs};
use table::{check, filled_rows};
use table_text::{LINE_BYTES, WrongWord, put_table, read_table, write_table};

// The sled's image has room for this many rows, and the radar's bay for this many of them from this place on.
// Stays: the same numbers as in `sled_book`, with which this program shares no crate.
const IMAGE_ROWS: usize = 64;

const BAY_FIRST: u8 = 8;

const BAY_ROWS: u8 = 48;

// Stays: a function and no `Display`, since a wrong word may be no text, and showing it takes memory.
fn print_wrong_word(rt: &HostRuntime, wrong: WrongWord<'_>) -> anyhow::Result<()> {
    let WrongWord {
        word,
        line,
        byte,
        ..
    } = wrong;
    let number = Refusal::TableWord { line, byte }.number();
    let word = String::from_utf8_lossy(rt.alloc(), word)?;
    println!(rt; "refused by {number}: line {line}, byte {byte}: wrong word \"{word}\"")?;
    Ok(())
}

// Stays: twin of that in `sled_book`; shared, it would be a public function of a third crate, whose promise no contract can say.
fn print_lawfulness<H: Host>(rt: &HostRuntime, host: &H) -> anyhow::Result<()> {
    match check(host) {
        Ok(()) => println!(rt; "the table is lawful")?,
        Err(breach) => {
            let number = Refusal::from(breach).number();
            println!(rt; "refused by {number}: {breach}")?;
        }
    }
    Ok(())
}

// Stays: twin of that in `sled_book`; shared, it would be a public function of a third crate, whose promise no contract can say.
fn print_table<H: Host>(rt: &HostRuntime, host: &H) -> anyhow::Result<()> {
    // Stays: a buffer that is lent, since the contract of `write_table` says just when it refuses, and that of `text_of_table` does not.
    let room = LINE_BYTES * usize::from(host.capacity());
    let mut text = vec![in rt.alloc(); 0u8; room]?;
    match write_table(host, &mut text) {
        Ok(len) => {
            println!(rt; "written as {len} bytes:")?;
            let text = String::from_utf8_lossy(rt.alloc(), &text[..len])?;
            print!(rt; "{text}")?;
        }
        Err(refusal) => {
            let number = refusal.number();
            println!(rt; "refused by {number}: the text does not fit the buffer")?;
        }
    }
    Ok(())
}

fn store(rt: &HostRuntime, rows: &[Row; 255]) -> anyhow::Result<()> {
    let words = vec![in rt.alloc(); 0u32; 8 * IMAGE_ROWS]?;
    let mut bay = Bay {
        below: Packed { words },
        first: BAY_FIRST,
        count: BAY_ROWS,
    };
    let capacity = bay.capacity();
    match put_table(rows, &mut bay) {
        Ok(()) => {
            let filled = filled_rows(&bay);
            println!(rt;
                "put into the bay: {capacity} places from place {BAY_FIRST} of an image of {IMAGE_ROWS} rows"
            )?;
            println!(rt; "read back: {filled} filled rows")?;
            print_lawfulness(rt, &bay)?;
            print_table(rt, &bay)?;
        }
        Err(refusal) => {
            let number = refusal.number();
            println!(rt; "refused by {number}: a place beyond the bay's {capacity}")?;
        }
    }
    Ok(())
}

fn run(rt: &HostRuntime) -> anyhow::Result<()> {
    let Some(path) = env::args(rt)?.nth(1) else {
        bail!("usage: sled TABLE, with the file of a table text");
    };
    let text = fs::read(rt, path.as_str()).map_err(|e| anyhow!("cannot read {path}: {e}"))?;
    let bytes = text.len();
    println!(rt; "{path}: {bytes} bytes")?;
    match read_table(&text) {
        Ok(rows) => store(rt, &rows),
        Err(wrong) => print_wrong_word(rt, wrong),
    }
}

fn main(rt: HostRuntime) -> anyhow::Result<()> {
    run(&rt)
}
