// Words of a formula's rule.
ghost use Rattle.std.specs.Prelude.{◌≡◌, false, ◌<◌, [], length, MatchOption, MatchResult, slice_index_or};
ghost use Rattle.std.specs.Str.{bytes_eq};
ghost use Rattle.book_text.specs.Cursors.{Behind};
ghost use Rattle.book_text.specs.declared.parts.Stop.TheVariants.{Wrong};
ghost use Rattle.formula_text.specs.Words.{rule_words};

use book_text::{Cursor, Stop, word_at};
use book_words::Token;

/// The word at an index, the first one without the `rule=` in front of it; an empty one behind the last.
pub(crate) fn rule_word<'a>(tokens: &[Token<'a>], i: usize) -> &'a [u8]
    ensures { result.now ≡ slice_index_or (rule_words tokens.now) i [] }
{
    let word = word_at(tokens, i);
    if i > 0 {
        return word;
    }
    word.get(5..).unwrap_or(b"")
}

/// Behind the next word, if it is this one.
// Stays: these two see the first word without its front, unlike a cursor's own; a trait for the two views would be longer than they are.
pub(crate) fn behind<'a>(cursor: Cursor<'a>, text: &[u8]) -> Option<Cursor<'a>>
    requires { 0 < length text.now }
    ensures { MatchOption result (bytes_eq (slice_index_or (rule_words cursor.entry.tokens.now) cursor.entry.at []) text.now ≡ false) (λ c. Behind rule_words cursor.entry text.now c) }
{
    if rule_word(cursor.tokens, cursor.at) == text {
        Some(cursor.to(cursor.at + 1))
    } else {
        None
    }
}

/// Behind the next word, which has to be this one.
pub(crate) fn expect<'a>(cursor: Cursor<'a>, text: &[u8]) -> Result<Cursor<'a>, Stop>
    requires { 0 < length text.now }
    ensures { MatchResult result (λ c. Behind rule_words cursor.entry text.now c) (λ e. (e ≡ Wrong cursor.entry.at) × (bytes_eq (slice_index_or (rule_words cursor.entry.tokens.now) cursor.entry.at []) text.now ≡ false)) }
{
    behind(cursor, text).ok_or(Stop::Wrong(cursor.at))
}
