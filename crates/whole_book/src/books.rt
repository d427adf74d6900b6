// A book as text.
ghost use Rattle.std.specs.Prelude.{◌≡◌, ◌+◌, ◌≤◌, length, take, drop, MatchResult};
ghost use Rattle.book_words.specs.Wrong.{TextOf};
ghost use Rattle.whole_book.specs.declared.books.BookError.TheVariants.{Memory};
ghost use Rattle.whole_book.specs.Books.{IsBook};
ghost use Rattle.whole_book.specs.Texts.{BookText, BookRefused, Passes, Located};

use crate::lines::read_lines;
use book_text::Stop;
use book_words::{Token, cut, point};
use ftpl::books::Book;
use std::alloc::{AllocError, Global};
use table_text::{WrongWord, wrong_word};

/// Why a book text is not read.
#[derive(Clone, Copy, Debug, PartialEq, Eq)]
pub enum BookError<'a> {
    /// the first word that no book text can have there, a part of the text
    Wrong(WrongWord<'a>),
    /// too little memory for the book
    Memory,
}

impl From<AllocError> for BookError<'_> {
    ghost from_gives = { λ _ e. e ≡ Memory };

    fn from(_error: AllocError) -> Self {
        Self::Memory
    }
}

/// A word of a text with its line and byte.
fn located<'a>(text: &'a [u8], token: Token<'a>) -> WrongWord<'a>
    ensures { token.entry.at + length token.entry.word.now ≤ length text.now → take (length token.entry.word.now) (drop token.entry.at text.now) ≡ token.entry.word.now → Located text.now token.entry.at token.entry.word.now result }
{
    wrong_word(text, token.at, token.at.saturating_add(token.word.len()))
}

/// Reads a book text: the book that its lines say; or the first word that no book text can have there; or want of memory.
pub fn read_book<'a>(heap: Global, text: &'a [u8]) -> Result<Book, BookError<'a>>
    ensures answer { MatchResult result (λ x. BookText text.now x) (λ e. BookRefused text.now e) }
    ensures passes { TextOf IsBook text.now → Passes result }
{
    let words = cut(heap, text)?;
    // Stays: an error here is a word of the text, which `Stop` does not have, so no `From` makes it.
    match read_lines(heap, words.tokens.as_slice()) {
        Ok(book) if words.end == text.len() => Ok(book),
        Ok(_) => {
            let token = point(text, &words, words.tokens.len());
            Err(BookError::Wrong(located(text, token)))
        }
        Err(Stop::Wrong(n)) => Err(BookError::Wrong(located(text, point(text, &words, n)))),
        Err(Stop::Memory) => Err(BookError::Memory),
    }
}
