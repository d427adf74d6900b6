ghost use Rattle.std.specs.Prelude.{◌≡◌, ◌≢◌, ◌+◌, ◌-◌, ◌<◌, ◌≤◌, length, take, drop, slice_index, MatchOption, All};
ghost use Rattle.std.specs.List.{position};
ghost use Rattle.table_text.specs.Texts.{parts, Word, Ended, Stands};
ghost use Rattle.table_text.specs.Marks.{Marks};

/// A wrong word: a part of the text that was read, and where it stands there.
#[derive(Clone, Copy, Debug, PartialEq, Eq)]
pub struct WrongWord<'a> {
    pub word: &'a [u8],
    /// its offset in the text
    pub at: usize,
    /// its line, from 1
    pub line: usize,
    /// its byte in that line, from 0
    pub byte: usize,
}

// A part of a text, from `at` up to `end`.
#[derive(Clone, Copy, Debug, PartialEq, Eq)]
pub(crate) struct Span {
    pub(crate) at: usize,
    pub(crate) end: usize,
}

fn is_parting(b: u8) -> bool
    ensures { result ≡ parts b }
{
    b == b' ' || b == b'\n'
}

fn first_parting(text: &[u8]) -> Option<usize>
    ensures { result ≡ position parts text.now }
{
    text.iter().position(|b| is_parting(*b))
}

// The place of the last newline in a text.
fn last_newline(text: &[u8]) -> Option<usize>
    ensures { MatchOption result (All (λ b. b ≢ 10) text.now) (λ i. (i < length text.now) × (slice_index text.now i ≡ 10) × All (λ b. b ≢ 10) (drop (i + 1) text.now)) }
{
    text.iter().rposition(|b| *b == b'\n')
}

// Where the word that begins at `at` ends: before a blank or a newline, or with the text.
pub(crate) fn word_end(text: &[u8], at: usize) -> usize
    requires { at ≤ length text.now }
    ensures within { (at ≤ result) × (result ≤ length text.now) }
    ensures word { Word (take (result - at) (drop at text.now)) }
    ensures ended { Ended (drop result text.now) }
{
    let rest = &text[at..];
    at + first_parting(rest).unwrap_or(rest.len())
}

// The line of an offset, from 1, and its byte there, from 0.
fn locate(text: &[u8], at: usize) -> (usize, usize)
    requires { at ≤ length text.now }
    ensures { Stands text.now at result.0 result.1 }
{
    let before = &text[..at];
    let line = 1 + before.iter().filter(|b| **b == b'\n').count();
    let byte = last_newline(before).map_or(at, |newline| at - newline - 1);
    (line, byte)
}

/// The part of a text from `at` up to `end` as a wrong word, with its line and byte.
/// Bounds that do not lie in the text are brought into it.
pub fn wrong_word<'a>(text: &'a [u8], at: usize, end: usize) -> WrongWord<'a>
    ensures { at ≤ end → end ≤ length text.now → Marks text.now at end result }
{
    let end = end.min(text.len());
    let at = at.min(end);
    let (line, byte) = locate(text, at);
    WrongWord {
        word: &text[at..end],
        at,
        line,
        byte,
    }
}
