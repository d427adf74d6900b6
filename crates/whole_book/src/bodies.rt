// What stands behind the first word of a line.
ghost use Rattle.std.specs.Prelude.{◌≡◌, ℕ, ◌≤◌, length, MatchResult};
ghost use Rattle.book_words.specs.Cuts.{words_of};
ghost use Rattle.whole_book.specs.declared.entries.Head.TheVariants.{Formula};
ghost use Rattle.whole_book.specs.Lines.{BodySays};
ghost use Rattle.whole_book.specs.Took.{LineEnd, BodyStopped};

use crate::entries::{Entry, Head};
use book_text::{Stop, is, read_property, word_at};
use book_words::Token;
use formula_text::read_formula;
use std::alloc::Global;

/// The index behind the end of the line that goes on at an index; behind the last word where the line does not end.
// Stays: words and an index and no cursor, since those who go on from here ask for a word at the index.
pub(crate) fn line_end(tokens: &[Token<'_>], at: usize) -> usize
    requires { at ≤ length tokens.now }
    ensures ahead { at ≤ result }
    ensures inside { result ≤ length tokens.now }
    ensures ends { LineEnd (words_of tokens.now) at result }
{
    match tokens[at..].iter().position(|t| is(t.word, b"\n")) {
        Some(n) => at + n + 1,
        None => tokens.len(),
    }
}

/// A standing condition, whose line has no more words.
fn condition_body(number: u8, words: &[Token<'_>]) -> Result<Entry, Stop>
    ensures { (k : ℕ) → MatchResult result (λ x. BodySays k (Head.Condition number) x (words_of words.now)) (λ e. BodyStopped k (Head.Condition number) (words_of words.now) e) }
{
    if !is(word_at(words, 0), b"\n") {
        return Err(Stop::Wrong(0));
    }
    if words.len() > 1 {
        return Err(Stop::Wrong(1));
    }
    Ok(Entry::Condition(number))
}

/// What a line says, whose first word announced it, in a book with so many properties; or where the line stops being one.
pub(crate) fn read_body(
    heap: Global,
    count: u8,
    head: Head,
    words: &[Token<'_>],
) -> Result<Entry, Stop>
    requires { head ≡ Formula → 1 ≤ count }
    ensures { MatchResult result (λ x. BodySays count head x (words_of words.now)) (λ e. BodyStopped count head (words_of words.now) e) }
{
    match head {
        Head::Property => Ok(Entry::Property(read_property(heap, words)?)),
        Head::Condition(number) => condition_body(number, words),
        Head::Formula => Ok(Entry::Formula(read_formula(heap, count, words)?)),
    }
}
