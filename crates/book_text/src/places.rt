// Where tests are read.
ghost use Rattle.std.specs.Prelude.{◌<◌, ◌≤◌};

use crate::cursors::Cursor;
use crate::parts::Part;

/// Where tests are read: how many parentheses may still be opened there, and how many tests the rule has had before.
#[derive(Clone, Copy)]
pub(crate) struct Place<'a> {
    pub cursor: Cursor<'a>,
    pub depth: u8,
    pub count: u8,
    ghost shallow: { depth ≤ 8 },
    ghost few: { count < 16 },
}

impl<'a> Place<'a> {
    ghost use Rattle.std.specs.Prelude.{◌≡◌, false, ◌+◌, ◌-◌, ◌&&◌, [], length, MatchOption, nat_lt, slice_index_or};
    ghost use Rattle.std.specs.Str.{bytes_eq};
    ghost use Rattle.book_words.specs.Cuts.{words_of};
    ghost use Rattle.book_text.specs.Places.{Continues};

    /// The same place at another cursor.
    pub(crate) fn to(self, cursor: Cursor<'a>) -> Self
        ensures cursor { result.cursor ≡ cursor.entry }
        ensures depth { result.depth ≡ self.entry.depth }
        ensures count { result.count ≡ self.entry.count }
    {
        Place {
            cursor,
            depth: self.depth,
            count: self.count,
        }
    }

    /// Inside a parenthesis that was opened.
    pub(crate) fn inside(self, cursor: Cursor<'a>) -> Self
        requires { 0 < self.depth }
        ensures cursor { result.cursor ≡ cursor.entry }
        ensures depth { result.depth ≡ self.entry.depth - 1 }
        ensures count { result.count ≡ self.entry.count }
    {
        Place {
            cursor,
            depth: self.depth - 1,
            count: self.count,
        }
    }

    /// Behind the sign that joins one more test to a part, if it stands there and one more may follow.
    pub(crate) fn joined(self, part: &Part, sign: &[u8]) -> Option<Self>
        requires inside { part.now.next ≤ length self.cursor.tokens.now }
        requires sign { 0 < length sign.now }
        ensures { MatchOption result ((nat_lt part.now.count 16 && bytes_eq (slice_index_or (words_of self.entry.cursor.tokens.now) part.now.next []) sign.now) ≡ false) (λ p. Continues self.entry part.now sign.now p) }
    {
        if part.count >= MOST {
            return None;
        }
        let cursor = self.cursor.to(part.next).behind(sign)?;
        Some(Place {
            cursor,
            depth: self.depth,
            count: part.count,
        })
    }
}

/// The most tests that a rule has.
const MOST: u8 = 16;
