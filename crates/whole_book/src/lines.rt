// The lines of a book, one after the other.
ghost use Rattle.std.specs.Prelude.{◌≡◌, ℕ, ◌<◌, ◌≤◌, length, take, vec_len, MatchResult, OnOk};
ghost use Rattle.book_words.specs.Cuts.{words_of};
ghost use Rattle.whole_book.specs.Books.{BookSays};
ghost use Rattle.whole_book.specs.Lines.{listed_in};
ghost use Rattle.whole_book.specs.Took.{Entered, LineTook, LineStopped, NextTook, Stopped};

use crate::bodies::{line_end, read_body};
use crate::entries::{Entry, Listed};
use crate::heads::head_of;
use book_text::{Stop, word_at};
use book_words::Token;
use ftpl::books::Book;
use std::alloc::{AllocError, Global};

/// What a line says, and the index behind it.
#[derive(Drop)]
pub(crate) struct Line {
    pub entry: Entry,
    pub next: usize,
}

/// What a book lists.
fn listed_in(book: &Book) -> Listed
    requires { (vec_len book.now.properties ≤ 64) × ((vec_len book.now.conditions ≤ 16) × (vec_len book.now.formulas ≤ 32)) }
    ensures { result ≡ listed_in book.now }
{
    Listed {
        properties: book.properties.len() as u8,
        conditions: book.conditions.len() as u8,
        last: book.conditions.last().copied().unwrap_or(0),
        formulas: book.formulas.len() as u8,
    }
}

/// Enters what a line says into a book.
fn enter(book: &mut Book, entry: Entry) -> Result<(), AllocError>
    ensures { OnOk result (Entered book.old entry book.new) }
{
    match entry {
        Entry::Property(property) => book.properties.push(property)?,
        Entry::Condition(number) => book.conditions.push(number)?,
        Entry::Formula(formula) => book.formulas.push(formula)?,
    }
    Ok(())
}

/// Reads the line at an index, given what is listed before; or says where it stops being one.
fn read_line(heap: Global, listed: Listed, tokens: &[Token<'_>], at: usize) -> Result<Line, Stop>
    requires { at < length tokens.now }
    ensures { MatchResult result (λ x. LineTook listed (words_of tokens.now) at x) (λ e. LineStopped listed (words_of tokens.now) at e) }
{
    let head = head_of(listed, word_at(tokens, at)).ok_or(Stop::Wrong(at))?;
    let end = line_end(tokens, at + 1);
    // Stays: a wrong word has another index here, so `?` alone would tell a wrong place.
    match read_body(heap, listed.properties, head, &tokens[at + 1..end]) {
        Ok(entry) => Ok(Line { entry, next: end }),
        Err(Stop::Wrong(n)) => Err(Stop::Wrong(at + 1 + n)),
        Err(Stop::Memory) => Err(Stop::Memory),
    }
}

/// Reads the line at an index into a book that the words before say, and answers the index behind it.
fn next_line(heap: Global, book: &mut Book, tokens: &[Token<'_>], at: usize) -> Result<usize, Stop>
    requires { (at < length tokens.now) × (BookSays book.old (take at (words_of tokens.now))) }
    ensures { MatchResult result (λ next. NextTook (words_of tokens.now) at book.new next) (λ e. Stopped (words_of tokens.now) e) }
{
    let line = read_line(heap, listed_in(book), tokens, at)?;
    enter(book, line.entry)?;
    Ok(line.next)
}

/// The book that the words say; or where they stop being one.
pub(crate) fn read_lines(heap: Global, tokens: &[Token<'_>]) -> Result<Book, Stop>
    ensures { MatchResult result (λ x. BookSays x (words_of tokens.now)) (λ e. Stopped (words_of tokens.now) e) }
{
    let mut book = Book {
        properties: Vec::new(heap),
        conditions: Vec::new(heap),
        formulas: Vec::new(heap),
    };
    let mut at = 0;
    // Stays: goes on by lines as long as what was read, so no iterator knows where the next one begins.
    while at < tokens.len() {
        at = next_line(heap, &mut book, tokens, at)?;
    }
    Ok(book)
}
