// One test.
ghost use Rattle.std.specs.Prelude.{MatchResult};
ghost use Rattle.book_text.specs.Rules.{plain};
ghost use Rattle.book_text.specs.States.{testing};
ghost use Rattle.book_text.specs.Places.{TookAt, FailedAt};

use crate::operands::{first_operand, second_operand};
use crate::parts::{Part, Stop};
use crate::places::Place;
use crate::scopes::{Scope, is_viable};
use crate::words::{Keyword, as_keyword, word_at};
use ftpl::properties::{Test, Tests};

/// Reads a test.
pub(crate) fn single_test(scope: Scope, place: Place<'_>) -> Result<Part, Stop>
    ensures { MatchResult result (λ x. TookAt plain scope place.entry x) (λ e. FailedAt testing scope place.entry e) }
{
    let tokens = place.cursor.tokens;
    let at = place.cursor.at;
    let keyword = as_keyword(word_at(tokens, at)).ok_or(Stop::Wrong(at))?;
    if !is_viable(scope, keyword) {
        return Err(Stop::Wrong(at));
    }
    let first = word_at(tokens, at + 1);
    let subject = first_operand(scope, keyword, first).ok_or(Stop::Wrong(at + 1))?;
    let count = place.count + 1;
    match keyword {
        Keyword::Up => Ok(Part {
            tests: Tests::Single(Test::Up { subject }),
            next: at + 2,
            count,
        }),
        _ => {
            let second = word_at(tokens, at + 2);
            let test = second_operand(scope, keyword, subject, second).ok_or(Stop::Wrong(at + 2))?;
            Ok(Part {
                tests: Tests::Single(test),
                next: at + 3,
                count,
            })
        }
    }
}
