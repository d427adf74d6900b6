// Reads book texts, one to a line of a file with `\n` for a newline and `\0` for a zero byte, and says what was found in each:
// the book, with every parenthesis of its rules, or the line, the byte and the word that is wrong.
#![tactic(auto)]

mod formulas;
mod properties;

use anyhow::{anyhow, bail};
use case_text::text_of_line;
use formulas::FormulaText;
use ftpl::books::Book;
use properties::PropertyText;
use std::{env, fs};
use table_text::WrongWord;
use whole_book::{BookError, read_book};

fn print_conditions(rt: &HostRuntime, conditions: &[u8]) -> anyhow::Result<()> {
    if conditions.is_empty() {
        print!(rt; "no conditions")?;
        return Ok(());
    }
    print!(rt; "conditions")?;
    for property in conditions {
        print!(rt; " {property}")?;
    }
    Ok(())
}

fn print_book(rt: &HostRuntime, book: &Book) -> anyhow::Result<()> {
    let properties = book.properties.len();
    let formulas = book.formulas.len();
    print!(rt; "{properties} properties, ")?;
    print_conditions(rt, &book.conditions)?;
    print!(rt; ", {formulas} formulas")?;
    for (number, property) in (1usize..).zip(&book.properties) {
        let rule = PropertyText(property);
        print!(rt; "; prop {number}: {rule}")?;
    }
    for (number, formula) in (1usize..).zip(&book.formulas) {
        let rule = FormulaText(formula);
        print!(rt; "; form {number}: {rule}")?;
    }
    println!(rt; "")?;
    Ok(())
}

// Stays: a function and no `Display`, since a wrong word may be no text, and showing it takes memory.
fn print_wrong_word(rt: &HostRuntime, wrong: WrongWord<'_>) -> anyhow::Result<()> {
    let word = String::from_utf8_lossy(rt.alloc(), wrong.word)?;
    println!(rt; "line {}, byte {}: \"{word}\"", wrong.line, wrong.byte)?;
    Ok(())
}

fn judge(rt: &HostRuntime, number: usize, text: &[u8]) -> anyhow::Result<()> {
    print!(rt; "{number}: ")?;
    match read_book(rt.alloc(), text) {
        Ok(book) => print_book(rt, &book),
        Err(BookError::Wrong(wrong)) => print_wrong_word(rt, wrong),
        Err(BookError::Memory) => Err(anyhow!("too little memory for a book")),
    }
}

// Stays: twin of that in `table_cases`; shared, it would take the judge as a closure and be no shorter.
fn run(rt: &HostRuntime) -> anyhow::Result<()> {
    let Some(path) = env::args(rt)?.nth(1) else {
        bail!("usage: book_cases FILE");
    };
    let cases = fs::read_to_string(rt, path.as_str())?;
    for (number, line) in (1usize..).zip(cases.lines()) {
        let text = text_of_line(rt.alloc(), line)?;
        judge(rt, number, &text)?;
    }
    Ok(())
}

fn main(rt: HostRuntime) -> anyhow::Result<()> {
    run(&rt)
}
