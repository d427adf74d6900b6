// The sled's program: reads a rack's table and its book from two texts, the table into the sled's packed image through its bay;
// says whether the table is lawful and writes it as text again; then what each property of the book is worth on the table,
// and whether the standing conditions hold.
#![tactic(auto)]

use anyhow::{anyhow, bail};
use ftpl::books::Book;
use ftpl::values::{broken_condition, property_value};
use host::{Bay, Host, Packed, Refusal};
use scale::{Beside, Distance};
use std::{env, fs};
use table::{check, filled_rows};
use table_text::{LINE_BYTES, WrongWord, write_table};
use whole_book::{TextsError, read_texts};

// The sled's image has room for this many rows, and the radar's bay for this many of them from this place on.
// Stays: the same numbers as in `sled`, with which this program shares no crate.
const IMAGE_ROWS: usize = 64;

const BAY_FIRST: u8 = 8;

const BAY_ROWS: u8 = 48;

// Stays: a function and no `Display`, since a wrong word may be no text, and showing it takes memory.
fn print_wrong_word(rt: &HostRuntime, text: &str, wrong: WrongWord<'_>) -> anyhow::Result<()> {
    let word = String::from_utf8_lossy(rt.alloc(), wrong.word)?;
    println!(rt;
        "{text}, line {}, byte {}: wrong word \"{word}\"",
        wrong.line, wrong.byte
    )?;
    Ok(())
}

fn print_denial(rt: &HostRuntime, error: TextsError<'_>, capacity: u8) -> anyhow::Result<()> {
    if let Some(refusal) = error.refusal() {
        let number = refusal.number();
        print!(rt; "refused by {number}: ")?;
    }
    match error {
        TextsError::Table(wrong) => print_wrong_word(rt, "table text", wrong)?,
        TextsError::Beyond => println!(rt; "a place beyond the bay's {capacity}")?,
        TextsError::Book(wrong) => print_wrong_word(rt, "book text", wrong)?,
        TextsError::Memory => println!(rt; "too little memory for the book")?,
    }
    Ok(())
}

// Stays: twin of that in `sled`; shared, it would be a public function of a third crate, whose promise no contract can say.
fn print_lawfulness<H: Host>(rt: &HostRuntime, host: &H) -> anyhow::Result<()> {
    match check(host) {
        Ok(()) => println!(rt; "the table is lawful")?,
        Err(breach) => {
            let number = Refusal::from(breach).number();
            println!(rt; "refused by {number}: {breach}")?;
        }
    }
    Ok(())
}

// Stays: twin of that in `sled`; shared, it would be a public function of a third crate, whose promise no contract can say.
fn print_table<H: Host>(rt: &HostRuntime, host: &H) -> anyhow::Result<()> {
    // Stays: a buffer that is lent, since the contract of `write_table` says just when it refuses, and that of `text_of_table` does not.
    let room = LINE_BYTES * usize::from(host.capacity());
    let mut text = vec![in rt.alloc(); 0u8; room]?;
    match write_table(host, &mut text) {
        Ok(len) => {
            println!(rt; "written as {len} bytes:")?;
            let text = String::from_utf8_lossy(rt.alloc(), &text[..len])?;
            print!(rt; "{text}")?;
        }
        Err(refusal) => {
            let number = refusal.number();
            println!(rt; "refused by {number}: the text does not fit the buffer")?;
        }
    }
    Ok(())
}

fn print_rack<H: Host>(rt: &HostRuntime, bay: &H) -> anyhow::Result<()> {
    let capacity = bay.capacity();
    let filled = filled_rows(bay);
    println!(rt;
        "put into the bay: {capacity} places from place {BAY_FIRST} of an image of {IMAGE_ROWS} rows"
    )?;
    println!(rt; "read back: {filled} filled rows")?;
    print_lawfulness(rt, bay)?;
    print_table(rt, bay)
}

fn verdict_word(verdict: bool) -> &'static str {
    if verdict { "yes" } else { "no" }
}

fn print_values<H: Host>(rt: &HostRuntime, host: &H, book: &Book) -> anyhow::Result<()> {
    for (number, property) in (1usize..).zip(&book.properties) {
        let value: Beside<bool, Distance> = property_value(host, property);
        let verdict = verdict_word(value.first);
        let distance = value.second.value();
        println!(rt; "property {number}: {verdict}, {distance}")?;
    }
    Ok(())
}

fn print_conditions<H: Host>(rt: &HostRuntime, host: &H, book: &Book) -> anyhow::Result<()> {
    match broken_condition(host, &book.properties, &book.conditions) {
        Some(property) => {
            let number = Refusal::ConditionBroken { property }.number();
            println!(rt;
                "refused by {number}: the standing condition of property {property} is broken"
            )?;
        }
        None => println!(rt; "every standing condition holds")?,
    }
    Ok(())
}

fn print_book<H: Host>(rt: &HostRuntime, host: &H, book: &Book) -> anyhow::Result<()> {
    let properties = book.properties.len();
    let conditions = book.conditions.len();
    let formulas = book.formulas.len();
    println!(rt;
        "the book: properties {properties}, standing conditions {conditions}, formulas {formulas}"
    )?;
    print_values(rt, host, book)?;
    print_conditions(rt, host, book)
}

fn read_file(rt: &HostRuntime, path: &str) -> anyhow::Result<Vec<u8>> {
    let text = fs::read(rt, path).map_err(|e| anyhow!("cannot read {path}: {e}"))?;
    let bytes = text.len();
    println!(rt; "{path}: {bytes} bytes")?;
    Ok(text)
}

fn run_on(rt: &HostRuntime, table_path: &str, book_path: &str) -> anyhow::Result<()> {
    let table = read_file(rt, table_path)?;
    let book = read_file(rt, book_path)?;
    let words = vec![in rt.alloc(); 0u32; 8 * IMAGE_ROWS]?;
    let mut bay = Bay {
        below: Packed { words },
        first: BAY_FIRST,
        count: BAY_ROWS,
    };
    match read_texts(rt.alloc(), &table, &book, &mut bay) {
        Ok(listed) => {
            print_rack(rt, &bay)?;
            print_book(rt, &bay, &listed)
        }
        Err(error) => print_denial(rt, error, bay.capacity()),
    }
}

fn run(rt: &HostRuntime) -> anyhow::Result<()> {
    let mut words = env::args(rt)?;
    let (Some(table), Some(book)) = (words.nth(1), words.next()) else {
        bail!("usage: sled TABLE BOOK, with the files of a table text and of a book text");
    };
    run_on(rt, table.as_str(), book.as_str())
}

fn main(rt: HostRuntime) -> anyhow::Result<()> {
    run(&rt)
}
