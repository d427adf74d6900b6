// Tests joined by `|`, `&` and `!`, with parentheses.
ghost use Rattle.std.specs.Prelude.{MatchResult};
ghost use Rattle.book_text.specs.Rules.{loose, tight, single as one_test, plain as one_group};
ghost use Rattle.book_text.specs.States.{turning, grouping};
ghost use Rattle.book_text.specs.Places.{TookAt, FailedAt};

use crate::parts::{Part, Stop, both_of, either_of, not_of};
use crate::places::Place;
use crate::scopes::Scope;
use crate::single_tests::single_test;
use std::alloc::Global;

/// Reads the tests of a rule with these variables.
#[derive(Clone, Copy)]
pub(crate) struct Reader {
    pub heap: Global,
    pub scope: Scope,
}

impl Reader {
    /// Tests joined by `|`.
    #[cycle(both_either_plain_single)]
    pub(crate) fn either(self, place: Place<'_>) -> Result<Part, Stop>
        ensures { MatchResult result (λ x. TookAt loose self.scope place.entry x) (λ e. FailedAt turning self.scope place.entry e) }
    {
        let left = self.both(place)?;
        let Some(next) = place.joined(&left, b"|") else {
            return Ok(left);
        };
        let right = self.either(next)?;
        Ok(Part {
            tests: either_of(self.heap, left.tests, right.tests)?,
            next: right.next,
            count: right.count,
        })
    }

    /// Tests joined by `&`.
    #[cycle(both_either_plain_single)]
    fn both(self, place: Place<'_>) -> Result<Part, Stop>
        ensures { MatchResult result (λ x. TookAt tight self.scope place.entry x) (λ e. FailedAt turning self.scope place.entry e) }
    {
        let left = self.single(place)?;
        let Some(next) = place.joined(&left, b"&") else {
            return Ok(left);
        };
        let right = self.both(next)?;
        Ok(Part {
            tests: both_of(self.heap, left.tests, right.tests)?,
            next: right.next,
            count: right.count,
        })
    }

    /// A test or a group, perhaps turned by `!`.
    #[cycle(both_either_plain_single)]
    fn single(self, place: Place<'_>) -> Result<Part, Stop>
        ensures { MatchResult result (λ x. TookAt one_test self.scope place.entry x) (λ e. FailedAt turning self.scope place.entry e) }
    {
        let Some(cursor) = place.cursor.behind(b"!") else {
            return self.plain(place);
        };
        let turned = self.plain(place.to(cursor))?;
        Ok(Part {
            tests: not_of(self.heap, turned.tests)?,
            next: turned.next,
            count: turned.count,
        })
    }

    /// A test, or a group in parentheses.
    #[cycle(both_either_plain_single)]
    fn plain(self, place: Place<'_>) -> Result<Part, Stop>
        ensures { MatchResult result (λ x. TookAt one_group self.scope place.entry x) (λ e. FailedAt grouping self.scope place.entry e) }
    {
        let Some(cursor) = place.cursor.behind(b"(") else {
            return single_test(self.scope, place);
        };
        if place.depth == 0 {
            return Err(Stop::Wrong(place.cursor.at));
        }
        let group = self.either(place.inside(cursor))?;
        let end = cursor.to(group.next).expect(b")")?;
        Ok(Part {
            tests: group.tests,
            next: end.at,
            count: group.count,
        })
    }
}
