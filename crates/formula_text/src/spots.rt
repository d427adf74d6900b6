// Where leaves are read.
ghost use Rattle.std.specs.Prelude.{◌<◌, ◌≤◌};

use crate::places::{Part, Place};
use crate::words::behind;
use book_text::Cursor;
use ftpl::formulas::Leaves;

/// Where leaves are read: how many parentheses may still be opened there, how many leaves came before, and these.
#[derive(Clone, Copy)]
pub(crate) struct Spot<'a> {
    pub cursor: Cursor<'a>,
    pub depth: u8,
    pub count: u8,
    pub leaves: Leaves,
    ghost shallow: { depth ≤ 8 },
    ghost few: { count < 4 },
}

/// The most leaves that a trace has.
const MOST: u8 = 4;

impl<'a> Spot<'a> {
    ghost use Rattle.std.specs.Prelude.{◌≡◌, false, ◌-◌, ◌&&◌, [], length, MatchOption, nat_lt, slice_index_or};
    ghost use Rattle.std.specs.Str.{bytes_eq};
    ghost use Rattle.formula_text.specs.Words.{rule_words};
    ghost use Rattle.formula_text.specs.Spots.{Continues};

    /// Inside a parenthesis that was opened.
    pub(crate) fn inside(self, cursor: Cursor<'a>) -> Self
        requires { 0 < self.depth }
        ensures cursor { result.cursor ≡ cursor.entry }
        ensures depth { result.depth ≡ self.entry.depth - 1 }
        ensures count { result.count ≡ self.entry.count }
        ensures leaves { result.leaves ≡ self.entry.leaves }
    {
        Spot {
            cursor,
            depth: self.depth - 1,
            count: self.count,
            leaves: self.leaves,
        }
    }

    /// Behind the sign that joins one more leaf to a part, if it stands there and one more may follow.
    pub(crate) fn joined(self, part: &Part, sign: &[u8]) -> Option<Self>
        requires inside { part.now.place.at ≤ length self.cursor.tokens.now }
        requires sign { 0 < length sign.now }
        ensures { MatchOption result ((nat_lt part.now.place.count 4 && bytes_eq (slice_index_or (rule_words self.entry.cursor.tokens.now) part.now.place.at []) sign.now) ≡ false) (λ y. Continues self.entry part.now sign.now y) }
    {
        let place = part.place;
        if place.count >= MOST {
            return None;
        }
        let cursor = behind(self.cursor.to(place.at), sign)?;
        Some(Spot {
            cursor,
            depth: self.depth,
            count: place.count,
            leaves: place.leaves,
        })
    }
}
