// Where the next token stands.
ghost use Rattle.std.specs.Prelude.{◌≡◌, ℕ, ◌+◌, ◌<◌, ◌≤◌, ◌⊎◌, length, MatchOption, ◌≢◌, slice_index};
ghost use Rattle.book_words.specs.Bytes.{kind_of};
ghost use Rattle.book_words.specs.Cuts.{Blanked, Skips, Begins, EndsAt, gap_fits, Ended, Misplaced, Stands};
ghost use Rattle.book_words.specs.declared.bytes.ByteKind.TheVariants.{Plain};

use crate::bytes::{ByteKind, Class, byte_kind};
use crate::tokens::{Found, Token};

/// The end of the plain bytes from `at` on.
// Stays: a text and an offset, here and below, since the offset is another in each and a struct of both would keep no fact.
fn word_end(text: &[u8], at: usize) -> usize
    requires { at ≤ length text.now }
    ensures ahead { at ≤ result }
    ensures within { result ≤ length text.now }
    ensures plain { (k : ℕ) → at ≤ k → k < result → kind_of (slice_index text.now k) ≡ Plain }
    ensures ends { result < length text.now → kind_of (slice_index text.now result) ≢ Plain }
{
    let plain = text[at..]
        .iter()
        .position(|b| byte_kind(*b) != ByteKind::Plain);
    match plain {
        Some(n) => at + n,
        None => text.len(),
    }
}

/// Behind the one blank that may stand at `at`, where the token before it is of this class.
fn skip_blank(text: &[u8], at: usize, class: Class) -> usize
    ensures { Skips text.now at class result }
{
    match class {
        Class::Line => at,
        Class::Sign | Class::Word => blank_end(text, at),
    }
}

/// Behind a blank, if one stands at `at`.
fn blank_end(text: &[u8], at: usize) -> usize
    ensures { Blanked text.now at result }
{
    if text.get(at) == Some(&b' ') {
        at + 1
    } else {
        at
    }
}

/// The class of the token at `at`; none at a blank or at the end of the text.
fn class_at(text: &[u8], at: usize) -> Option<Class>
    ensures { MatchOption result (at < length text.now → slice_index text.now at ≡ 32) (λ d. (at < length text.now) × Begins d (slice_index text.now at)) }
{
    match byte_kind(*text.get(at)?) {
        ByteKind::Blank => None,
        ByteKind::Newline => Some(Class::Line),
        ByteKind::Sign => Some(Class::Sign),
        ByteKind::Plain => Some(Class::Word),
    }
}

/// The end of the token of this class at `at`.
fn token_end(text: &[u8], at: usize, class: Class) -> usize
    requires { (at < length text.now) × (Begins class (slice_index text.now at)) }
    ensures { EndsAt class text.now at result }
{
    match class {
        Class::Line | Class::Sign => at + 1,
        Class::Word => word_end(text, at),
    }
}

/// Whether what stands between two tokens may stand there, once at most one blank was skipped.
fn gap_fits(before: Class, end: usize, at: usize, after: Class) -> bool
    ensures { result ≡ gap_fits before end at after }
{
    match (before, after) {
        (Class::Word, Class::Line) => end == at,
        _ => true,
    }
}

/// The token behind one of this class that ends at `end`; none at the end of the text or at a misplaced blank.
pub(crate) fn next_token<'a>(text: &'a [u8], end: usize, class: Class) -> Option<Found<'a>>
    requires { (end ≤ length text.now) × (Ended class text.now end) }
    ensures { MatchOption result ((end ≡ length text.now) ⊎ Misplaced class text.now end) (λ x. Stands text.now end class x) }
{
    let at = skip_blank(text, end, class);
    let found = class_at(text, at)?;
    if !gap_fits(class, end, at, found) {
        return None;
    }
    let behind = token_end(text, at, found);
    Some(Found {
        token: Token {
            word: &text[at..behind],
            at,
        },
        class: found,
        end: behind,
    })
}
