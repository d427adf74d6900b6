// Leaves joined by `|` and `&`, with parentheses, and a formula up to the end of the line.
ghost use Rattle.std.specs.Prelude.{◌≤◌};

use crate::events::event_list;
use crate::leaves::{as_leaf, leaf_of};
use crate::lines::{Ending, Line};
use crate::places::{Part, Place, both_of, either_of, put_leaf, slot_at};
use crate::spots::Spot;
use crate::words::{behind, expect, rule_word};
use book_text::{Cursor, Stop, natural_between};
use ftpl::formulas::{Core, Formula, Leaf, Leaves, Trace};
use std::alloc::Global;

/// Reads the formulas of a book that has this many properties.
#[derive(Clone, Copy)]
pub(crate) struct Reader {
    pub heap: Global,
    pub most: u8,
    ghost some: { 1 ≤ most },
}

// Stays: twins of those in `book_text` in shape alone: a trait of both would have to name what is counted, held and promised
// in each, every definition that the promises rest on twice.
impl Reader {
    ghost use Rattle.std.specs.Prelude.{◌≡◌, ℕ, Bool, true, false, [], ◌∷◌, codes, MatchResult, slice_index_or};
    ghost use Rattle.std.specs.Str.{bytes_eq};
    ghost use Rattle.book_text.specs.Rules.{loose, tight, plain as one_group};
    ghost use Rattle.formula_text.specs.Words.{rule_words};
    ghost use Rattle.formula_text.specs.States.{tracing, bracket, ready};
    ghost use Rattle.formula_text.specs.Took.{TraceTook, IsTrace, EndTook, Ends, LineTook, Lines, Failed};
    ghost use Rattle.formula_text.specs.Spots.{TookAt, FailedAt};

    /// Reads one leaf.
    fn one_leaf(self, spot: Spot<'_>) -> Result<Part, Stop>
        requires { bytes_eq (slice_index_or (rule_words spot.cursor.tokens.now) spot.cursor.at []) (codes "(") ≡ false }
        ensures { (b : Bool) → MatchResult result (λ x. TookAt one_group self.most spot.entry x) (λ w. FailedAt b one_group self.most spot.entry w) }
    {
        let tokens = spot.cursor.tokens;
        let at = spot.cursor.at;
        let word = as_leaf(rule_word(tokens, at)).ok_or(Stop::Wrong(at))?;
        let number = rule_word(tokens, at + 1);
        let number = natural_between(number, 1, self.most).ok_or(Stop::Wrong(at + 1))?;
        Ok(Part {
            trace: Trace::At(slot_at(spot.count)),
            place: Place {
                at: at + 2,
                count: spot.count + 1,
                leaves: put_leaf(spot.leaves, spot.count, leaf_of(word, number)),
            },
        })
    }

    /// Leaves joined by `|`.
    #[cycle(both_either_plain)]
    pub(crate) fn either(self, spot: Spot<'_>) -> Result<Part, Stop>
        ensures { (b : Bool) → MatchResult result (λ x. TookAt loose self.most spot.entry x) (λ w. FailedAt b loose self.most spot.entry w) }
    {
        let left = self.both(spot)?;
        let Some(next) = spot.joined(&left, b"|") else {
            return Ok(left);
        };
        let right = self.either(next)?;
        Ok(Part {
            trace: either_of(self.heap, left.trace, right.trace)?,
            place: right.place,
        })
    }

    /// Leaves joined by `&`.
    #[cycle(both_either_plain)]
    fn both(self, spot: Spot<'_>) -> Result<Part, Stop>
        ensures { (b : Bool) → MatchResult result (λ x. TookAt tight self.most spot.entry x) (λ w. FailedAt b tight self.most spot.entry w) }
    {
        let left = self.plain(spot)?;
        let Some(next) = spot.joined(&left, b"&") else {
            return Ok(left);
        };
        let right = self.both(next)?;
        Ok(Part {
            trace: both_of(self.heap, left.trace, right.trace)?,
            place: right.place,
        })
    }

    /// A leaf, or a group in parentheses.
    #[cycle(both_either_plain)]
    fn plain(self, spot: Spot<'_>) -> Result<Part, Stop>
        ensures { (b : Bool) → MatchResult result (λ x. TookAt one_group self.most spot.entry x) (λ w. FailedAt b one_group self.most spot.entry w) }
    {
        let Some(cursor) = behind(spot.cursor, b"(") else {
            return self.one_leaf(spot);
        };
        if spot.depth == 0 {
            return Err(Stop::Wrong(spot.cursor.at));
        }
        let group = self.either(spot.inside(cursor))?;
        let end = expect(cursor.to(group.place.at), b")")?;
        Ok(Part {
            trace: group.trace,
            place: Place {
                at: end.at,
                ..group.place
            },
        })
    }

    /// Reads a trace.
    fn whole_trace(self, cursor: Cursor<'_>) -> Result<Part, Stop>
        ensures { (b : Bool) → MatchResult result (λ x. TraceTook self.most (rule_words cursor.entry.tokens.now) cursor.entry.at x) (λ w. Failed self.most (IsTrace self.most) (tracing b 0 0) (rule_words cursor.entry.tokens.now) cursor.entry.at w) }
    {
        let none = Leaf::Always(0);
        self.either(Spot {
            cursor,
            depth: 8,
            count: 0,
            leaves: Leaves {
                first: none,
                second: none,
                third: none,
                fourth: none,
            },
        })
    }

    /// Reads a trace, perhaps with `until` and a list of events, up to the end of the line.
    fn trace_line(self, cursor: Cursor<'_>) -> Result<Ending, Stop>
        ensures { MatchResult result (λ x. EndTook self.most [] (rule_words cursor.entry.tokens.now) cursor.entry.at x) (λ w. Failed self.most (Ends self.most []) (tracing true 0 0) (rule_words cursor.entry.tokens.now) cursor.entry.at w) }
    {
        let part = self.whole_trace(cursor)?;
        let end = cursor.to(part.place.at);
        if let Some(next) = behind(end, b"\n") {
            return Ok(Ending {
                core: Core::Plain(part.trace),
                leaves: part.place.leaves,
                next: next.at,
            });
        }
        let until = expect(end, b"until")?;
        let events = event_list(until)?;
        let next = expect(cursor.to(events.next), b"\n")?;
        Ok(Ending {
            core: Core::Until(part.trace, events.list),
            leaves: part.place.leaves,
            next: next.at,
        })
    }

    /// Reads the list of events behind `before` and the trace, up to the end of the line.
    fn before_line(self, cursor: Cursor<'_>) -> Result<Ending, Stop>
        ensures { MatchResult result (λ x. EndTook self.most (codes "before" ∷ []) (rule_words cursor.entry.tokens.now) cursor.entry.at x) (λ w. Failed self.most (Ends self.most (codes "before" ∷ [])) (bracket (tracing false 0 0)) (rule_words cursor.entry.tokens.now) cursor.entry.at w) }
    {
        let events = event_list(cursor)?;
        let part = self.whole_trace(cursor.to(events.next))?;
        let next = expect(cursor.to(part.place.at), b"\n")?;
        Ok(Ending {
            core: Core::Before(events.list, part.trace),
            leaves: part.place.leaves,
            next: next.at,
        })
    }

    /// Reads what stands behind the `after`s, up to the end of the line.
    fn core_line(self, cursor: Cursor<'_>) -> Result<Ending, Stop>
        requires { bytes_eq (slice_index_or (rule_words cursor.tokens.now) cursor.at []) (codes "after") ≡ false }
        ensures { (j : ℕ) → MatchResult result (λ x. EndTook self.most [] (rule_words cursor.entry.tokens.now) cursor.entry.at x) (λ w. Failed self.most (Ends self.most []) (ready j) (rule_words cursor.entry.tokens.now) cursor.entry.at w) }
    {
        match behind(cursor, b"before") {
            Some(list) => self.before_line(list),
            None => self.trace_line(cursor),
        }
    }

    /// Reads a formula up to the end of the line, which follows some lists of events behind `after`.
    pub(crate) fn read_line(self, cursor: Cursor<'_>, lists: u8) -> Result<Line, Stop>
        requires { lists ≤ 3 }
        ensures { MatchResult result (λ x. LineTook self.most lists (rule_words cursor.entry.tokens.now) cursor.entry.at x) (λ w. Failed self.most (Lines self.most lists) (ready lists) (rule_words cursor.entry.tokens.now) cursor.entry.at w) }
    {
        let Some(list) = behind(cursor, b"after") else {
            let ending = self.core_line(cursor)?;
            return Ok(Line {
                formula: Formula {
                    first: None,
                    second: None,
                    third: None,
                    core: ending.core,
                    leaves: ending.leaves,
                },
                next: ending.next,
            });
        };
        if lists == 3 {
            return Err(Stop::Wrong(cursor.at));
        }
        let events = event_list(list)?;
        let rest = self.read_line(cursor.to(events.next), lists + 1)?;
        Ok(Line {
            formula: Formula {
                first: Some(events.list),
                second: rest.formula.first,
                third: rest.formula.second,
                core: rest.formula.core,
                leaves: rest.formula.leaves,
            },
            next: rest.next,
        })
    }
}
