// Reads table texts, one to a line of a file with `\n` for a newline and `\0` for a zero byte, and says what was found in each:
// how many rows, or the line, the byte and the word that is wrong.
#![tactic(auto)]

use anyhow::Context;
use case_text::text_of_line;
use std::{env, fs};
use table_text::{WrongWord, read_table};

// Stays: shows a wrong word itself and by no `Display`, since it may be no text, and showing it takes memory.
fn judge(rt: &HostRuntime, number: usize, text: &[u8]) -> anyhow::Result<()> {
    match read_table(text) {
        Ok(rows) => {
            let filled = rows.iter().filter(|row| row.is_filled()).count();
            println!(rt; "{number}: {filled} rows")?;
        }
        Err(
            WrongWord {
                word,
                line,
                byte,
                ..
            },
        ) => {
            let word = String::from_utf8_lossy(rt.alloc(), word)?;
            println!(rt; "{number}: line {line}, byte {byte}: \"{word}\"")?;
        }
    }
    Ok(())
}

// Stays: twin of that in `book_cases`; shared, it would take the judge as a closure and be no shorter.
fn run(rt: &HostRuntime) -> anyhow::Result<()> {
    let path = env::args(rt)?.nth(1).context("usage: table_cases FILE")?;
    let cases = fs::read_to_string(rt, path.as_str())?;
    for (number, line) in (1usize..).zip(cases.lines()) {
        let text = text_of_line(rt.alloc(), line)?;
        judge(rt, number, &text)?;
    }
    Ok(())
}

fn main(rt: HostRuntime) -> anyhow::Result<()> {
    run(&rt)
}
