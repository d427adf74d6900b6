// A table and a book read together.
ghost use Rattle.std.specs.Prelude.{◌≡◌};
ghost use Rattle.whole_book.specs.Both.{TextsRead, refusal_of, why_of};

use crate::books::{BookError, read_book};
use ftpl::books::Book;
use host::{Host, Refusal};
use std::alloc::Global;
use table_text::{WrongWord, is_within, put_table, read_table};

/// Why a table text and a book text are not read.
#[derive(Clone, Copy, Debug, PartialEq, Eq)]
pub enum TextsError<'a> {
    /// the first wrong word of the table text, a part of it
    Table(WrongWord<'a>),
    /// a place of the table text is beyond the host
    Beyond,
    /// the first wrong word of the book text, a part of it
    Book(WrongWord<'a>),
    /// too little memory for the book
    Memory,
}

impl TextsError<'_> {
    /// The refusal that it is: 16, 2 or 17; none for want of memory.
    pub fn refusal(&self) -> Option<Refusal>
        ensures { result ≡ refusal_of self.now }
    {
        match self {
            TextsError::Table(wrong) => Some(Refusal::TableWord {
                line: wrong.line,
                byte: wrong.byte,
            }),
            TextsError::Beyond => Some(Refusal::BeyondCapacity),
            TextsError::Book(wrong) => Some(Refusal::BookWord {
                line: wrong.line,
                byte: wrong.byte,
            }),
            TextsError::Memory => None,
        }
    }
}

impl<'a> From<BookError<'a>> for TextsError<'a> {
    ghost from_gives = { λ e t. t ≡ why_of e };

    fn from(error: BookError<'a>) -> Self {
        match error {
            BookError::Wrong(wrong) => TextsError::Book(wrong),
            BookError::Memory => TextsError::Memory,
        }
    }
}

/// Reads a table text into a host, and a book text. A wrong word is a part of whichever of the two texts has it.
/// Whatever is refused, the host is as it was.
pub fn read_texts<'a, H: Host>(
    heap: Global,
    table: &'a [u8],
    book: &'a [u8],
    host: &mut H,
) -> Result<Book, TextsError<'a>>
    ensures { TextsRead H.Host.rows H.Host.held table.now book.now host.old result host.new }
{
    let rows = read_table(table).map_err(TextsError::Table)?;
    if !is_within(&rows, host.capacity()) {
        return Err(TextsError::Beyond);
    }
    let read = read_book(heap, book)?;
    // the rows fit, and a place beyond the host is all that `put_table` refuses
    put_table(&rows, host).map_err(|_| TextsError::Beyond)?;
    Ok(read)
}
