ghost use Rattle.std.specs.Prelude.{◌≡◌, ℕ, ◌+◌, ◌<◌, ◌≤◌, List, ◌++◌, length, take, Ok, MatchOption, MatchResult, ◌≢◌};
ghost use Rattle.host.specs.declared.rows.Row.{Row};
ghost use Rattle.table_text.specs.declared.lines.Line.{Line};
ghost use Rattle.table_text.specs.Lines.{kind_text, place_text, value_text, word, ended, line_text, text_of_table};
ghost use Rattle.table_text.specs.Keys.{Fits, before};
ghost use Rattle.table_text.specs.Marks.{ReadAs, WrongIn};
ghost use Rattle.table_text.specs.Reading.{WrongInLine};
ghost use Rattle.table_text.specs.Texts.{SayableTable};

use crate::lines::{Key, Line, ORDER};
use crate::words::{Span, WrongWord, word_end, wrong_word};
use host::{COMPONENT, EMPTY, NONE, PARAMETER, PROVIDED, REQUIRED, Row, pack_name};
use numerals::{natural_between, value_within};

// Stays: a function and no `TryFrom`, since a kind is a number here and a word that names none is no error yet.
fn kind_named(text: &[u8]) -> Option<u8>
    ensures { MatchOption result ((k : ℕ) → 0 < k → k ≤ 4 → text.now ≢ kind_text k) (λ k. (0 < k) × (k ≤ 4) × (text.now ≡ kind_text k)) }
{
    match text {
        b"comp" => Some(COMPONENT),
        b"prov" => Some(PROVIDED),
        b"req" => Some(REQUIRED),
        b"par" => Some(PARAMETER),
        _ => None,
    }
}

fn place_or_none(text: &[u8]) -> Option<u8>
    ensures { MatchOption result ((p : ℕ) → p ≤ 255 → text.now ≢ place_text p) (λ p. (p ≤ 255) × (text.now ≡ place_text p)) }
{
    match text {
        b"none" => Some(NONE),
        _ => natural_between(text, 0, 254),
    }
}

// Stays: `line` and `next` would be a struct with a ghost field for `Fits`, but it holds the bytes of a name, so it is no proposition, as such a field must be.
// The line with what the text behind a key says put into it.
fn take_value(line: Line, key: Key, text: &[u8], next: u8) -> Option<Line>
    requires { Fits next line }
    ensures { MatchOption result ((l : Line) → Fits next l → text.now ≢ value_text key l) (λ l. Fits next l × (text.now ≡ value_text key l) × (before l key ≡ before line key)) }
{
    let mut taken = line;
    match key {
        Key::Place => taken.place = natural_between(text, next, 254)?,
        Key::Kind => taken.row.kind = kind_named(text)?,
        Key::Name => taken.row.name = pack_name(text)?,
        Key::Owner => taken.row.owner = place_or_none(text)?,
        Key::Link => taken.row.link = place_or_none(text)?,
        Key::Up => taken.row.up = natural_between(text, 0, 1)? as u32,
        Key::Lo => taken.row.lo = value_within(text)?,
        Key::Hi => taken.row.hi = value_within(text)?,
        Key::Value => taken.row.value = value_within(text)?,
    }
    Some(taken)
}

// The line with what a word says put into it, where the word has this key.
fn take_word(line: Line, key: Key, text: &[u8], next: u8) -> Option<Line>
    requires { Fits next line }
    ensures { MatchOption result ((l : Line) → Fits next l → text.now ≡ word l key → ⊥) (λ l. Fits next l × (text.now ≡ word l key) × (before l key ≡ before line key)) }
{
    take_value(line, key, text.strip_prefix(key.text())?, next)
}

// Reads the word of a key, and what ends it, from `at` on.
fn read_word(rest: &[u8], at: usize, line: Line, key: Key, next: u8) -> Result<(Line, usize), Span>
    requires within { at ≤ length rest.now }
    requires fits { Fits next line }
    requires begun { take at rest.now ≡ before line key }
    ensures { MatchResult result (λ x. Fits next x.0 × (x.1 ≤ length rest.now) × (take x.1 rest.now ≡ before x.0 key ++ ended x.0 key)) (λ e. WrongInLine next rest.now e) }
{
    let end = word_end(rest, at);
    let taken = take_word(line, key, &rest[at..end], next).ok_or(Span { at, end })?;
    match rest.get(end) {
        Some(b) if *b == key.ending() => Ok((taken, end + 1)),
        Some(b' ') => Err(Span {
            at: end + 1,
            end: word_end(rest, end + 1),
        }),
        _ => Err(Span { at: end, end }),
    }
}

// A line that may come where places below `next` are past; what is read is put into it value by value.
fn sample_line(next: u8) -> Line
    requires { next ≤ 254 }
    ensures { Fits next result }
{
    let row = Row {
        kind: COMPONENT,
        name: 0x6100_0000_0000_0000,
        ..EMPTY
    };
    Line { place: next, row }
}

// Reads a line from the start of the rest of a text, and says where the next one begins.
fn read_line(rest: &[u8], next: u8) -> Result<(Line, usize), Span>
    ensures { MatchResult result (λ x. Fits next x.0 × (x.1 ≤ length rest.now) × (take x.1 rest.now ≡ line_text x.0)) (λ e. WrongInLine next rest.now e) }
{
    if next > 254 {
        return Err(Span {
            at: 0,
            end: word_end(rest, 0),
        });
    }
    let mut line = sample_line(next);
    let mut at = 0;
    for key in ORDER {
        (line, at) = read_word(rest, at, line, key, next)?;
    }
    Ok((line, at))
}

/// Reads a table text: the rows that its lines say, the others empty; or the first word that no table text can have there.
/// The text is then exactly the written form of the table, and what was written of a table that a text can say is read back as that table.
pub fn read_table<'a>(text: &'a [u8]) -> Result<[Row; 255], WrongWord<'a>>
    ensures answer { MatchResult result (λ t. ReadAs text.now t) (λ w. WrongIn text.now w) }
    ensures back { (t : List Row) → length t ≡ 255 → SayableTable t → text.now ≡ text_of_table t → result ≡ Ok t }
{
    let mut table = [EMPTY; 255];
    let mut next = 0;
    let mut at = 0;
    // Stays: goes on by lines as long as what was read, so no iterator knows where the next one begins.
    while at < text.len() {
        let (line, len) = read_line(&text[at..], next).map_err(|wrong| wrong_word(
            text,
            at + wrong.at,
            at + wrong.end,
        ))?;
        table[line.place as usize] = line.row;
        next = line.place + 1;
        at += len;
    }
    Ok(table)
}
