// A place among the words of a text.
ghost use Rattle.std.specs.Prelude.{◌≤◌, length};

use crate::parts::Stop;
use crate::words::word_at;
use book_words::Token;

/// A place among the words of a text: before one of them, or behind the last.
#[derive(Clone, Copy)]
pub struct Cursor<'a> {
    pub tokens: &'a [Token<'a>],
    pub at: usize,
    pub ghost inside: { at ≤ length tokens.now },
}

impl<'a> Cursor<'a> {
    ghost use Rattle.std.specs.Prelude.{◌≡◌, false, ◌+◌, ◌<◌, [], MatchOption, MatchResult, slice_index_or};
    ghost use Rattle.std.specs.Str.{bytes_eq};
    ghost use Rattle.book_words.specs.Cuts.{words_of};
    ghost use Rattle.book_text.specs.declared.parts.Stop.TheVariants.{Wrong};
    ghost use Rattle.book_text.specs.Cursors.{Behind};

    /// The next word, an empty one behind the last.
    pub(crate) fn word(self) -> &'a [u8]
        ensures { result.now ≡ slice_index_or (words_of self.entry.tokens.now) self.entry.at [] }
    {
        word_at(self.tokens, self.at)
    }

    /// The place at another index.
    pub fn to(self, at: usize) -> Self
        requires { at ≤ length self.tokens.now }
        ensures tokens { result.tokens ≡ self.entry.tokens }
        ensures at { result.at ≡ at }
    {
        Cursor {
            tokens: self.tokens,
            at,
        }
    }

    /// Behind the next word, if it is this one.
    // Stays: that the word is not empty is asked for and not kept in a type, since only literals are handed in.
    pub(crate) fn behind(self, text: &[u8]) -> Option<Self>
        requires { 0 < length text.now }
        ensures { MatchOption result (bytes_eq (slice_index_or (words_of self.entry.tokens.now) self.entry.at []) text.now ≡ false) (λ c. Behind words_of self.entry text.now c) }
    {
        if self.word() == text {
            Some(self.to(self.at + 1))
        } else {
            None
        }
    }

    /// Behind the next word, which has to be this one.
    pub(crate) fn expect(self, text: &[u8]) -> Result<Self, Stop>
        requires { 0 < length text.now }
        ensures { MatchResult result (λ c. Behind words_of self.entry text.now c) (λ e. (e ≡ Wrong self.entry.at) × (bytes_eq (slice_index_or (words_of self.entry.tokens.now) self.entry.at []) text.now ≡ false)) }
    {
        self.behind(text).ok_or(Stop::Wrong(self.at))
    }
}
