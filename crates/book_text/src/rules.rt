// The rule of a property.
ghost use Rattle.std.specs.Prelude.{◌≡◌, ℕ, ◌+◌, ◌<◌, ◌≤◌, [], length, None, Option, MatchResult, slice_index_or};
ghost use Rattle.ftpl.specs.declared.properties.VariableKind.{VariableKind as KindOfRows};
ghost use Rattle.book_words.specs.Cuts.{words_of};
ghost use Rattle.book_text.specs.Words.{quantifier_of};
ghost use Rattle.book_text.specs.Rules.{scope_of, PropertySays};
ghost use Rattle.book_text.specs.States.{opening, naming, scoped, name_of_next};
ghost use Rattle.book_text.specs.Took.{Failed, Bound, TestsTaken, RuleTaken};
ghost use Rattle.book_text.specs.Wrong.{Stopped};

use crate::cursors::Cursor;
use crate::joins::Reader;
use crate::parts::Stop;
use crate::places::Place;
use crate::scopes::Scope;
use crate::words::{as_kind, as_opening, as_quantifier};
use book_words::Token;
use ftpl::properties::{Binder, Property, VariableKind};
use std::alloc::Global;

/// A property that was read, and the index behind its rule.
#[derive(Drop)]
pub(crate) struct Rule {
    pub property: Property,
    pub next: usize,
}

/// The kind of the rows that a quantifier binds its variable to.
fn bound_kind(cursor: Cursor<'_>, name: &[u8]) -> Result<VariableKind, Stop>
    requires { 0 < length name.now }
    ensures { (o : Option KindOfRows) → name_of_next o ≡ name.now → MatchResult result (λ k. Bound o (words_of cursor.entry.tokens.now) cursor.entry.at k) (λ e. Failed (naming o) (words_of cursor.entry.tokens.now) cursor.entry.at e) }
{
    let kind = cursor.expect(name)?.expect(b":")?;
    as_kind(kind.word()).ok_or(Stop::Wrong(kind.at))
}

fn scope_of(outer: Binder, inner: Option<Binder>) -> Scope
    ensures { result ≡ scope_of outer inner }
{
    Scope {
        outer: outer.kind,
        inner: inner.map(|binder| binder.kind),
    }
}

/// The colon and the tests behind the quantifiers.
fn rule_tests(
    heap: Global,
    outer: Binder,
    inner: Option<Binder>,
    cursor: Cursor<'_>,
) -> Result<Rule, Stop>
    requires { inner ≡ None → quantifier_of (slice_index_or (words_of cursor.tokens.now) cursor.at []) ≡ None }
    ensures { MatchResult result (λ x. TestsTaken outer inner (words_of cursor.entry.tokens.now) cursor.entry.at x) (λ e. Failed (scoped (scope_of outer inner)) (words_of cursor.entry.tokens.now) cursor.entry.at e) }
{
    let scope = scope_of(outer, inner);
    let tests = cursor.expect(b":")?;
    let part = Reader { heap, scope }.either(Place {
        cursor: tests,
        depth: 8,
        count: 0,
    })?;
    let end = cursor.to(part.next).expect(b"\n")?;
    Ok(Rule {
        property: Property {
            outer,
            inner,
            tests: part.tests,
        },
        next: end.at,
    })
}

/// Reads a property's rule up to the end of the line.
pub(crate) fn read_rule(heap: Global, cursor: Cursor<'_>) -> Result<Rule, Stop>
    ensures { MatchResult result (λ x. RuleTaken (words_of cursor.entry.tokens.now) cursor.entry.at x) (λ e. Failed opening (words_of cursor.entry.tokens.now) cursor.entry.at e) }
{
    let at = cursor.at;
    let quantifier = as_opening(cursor.word()).ok_or(Stop::Wrong(at))?;
    let kind = bound_kind(cursor.to(at + 1), b"v")?;
    let outer = Binder { quantifier, kind };
    let behind = cursor.to(at + 4);
    let Some(quantifier) = as_quantifier(behind.word()) else {
        return rule_tests(heap, outer, None, behind);
    };
    let kind = bound_kind(cursor.to(at + 5), b"w")?;
    let inner = Binder { quantifier, kind };
    rule_tests(heap, outer, Some(inner), cursor.to(at + 8))
}

/// The property whose rule the words are, the end of the line among them; or where they stop being one.
pub fn read_property(heap: Global, words: &[Token<'_>]) -> Result<Property, Stop>
    ensures { MatchResult result (λ x. PropertySays x (words_of words.now)) (λ e. Stopped (words_of words.now) e) }
{
    let start = Cursor {
        tokens: words,
        at: 0,
    };
    let rule = read_rule(heap, start)?;
    if rule.next == words.len() {
        Ok(rule.property)
    } else {
        Err(Stop::Wrong(rule.next))
    }
}
