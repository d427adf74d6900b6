// The rule of a formula.
ghost use Rattle.std.specs.Prelude.{◌≡◌, ℕ, ◌≤◌, take, codes, MatchResult};
ghost use Rattle.std.specs.Str.{bytes_eq};
ghost use Rattle.book_words.specs.Cuts.{words_of};
ghost use Rattle.formula_text.specs.Rules.{FormulaSays};
ghost use Rattle.formula_text.specs.Wrong.{Stopped, Front};

use crate::readers::Reader;
use crate::words::rule_word;
use book_text::{Cursor, Stop, word_at};
use book_words::Token;
use ftpl::formulas::Formula;
use std::alloc::Global;

/// Whether a word begins with `rule=`.
fn has_front(word: &[u8]) -> bool
    ensures { result ≡ bytes_eq (take 5 word.now) (codes "rule=") }
{
    word.starts_with(b"rule=")
}

/// The index of the word that the formula begins in: the one with `rule=` in front, or the parenthesis behind `rule=`.
fn line_start(words: &[Token<'_>]) -> Result<usize, Stop>
    ensures { (n : ℕ) → 1 ≤ n → MatchResult result (λ a. Front (words_of words.now) a) (λ e. Stopped n (words_of words.now) e) }
{
    if !has_front(word_at(words, 0)) {
        return Err(Stop::Wrong(0));
    }
    match (rule_word(words, 0), rule_word(words, 1)) {
        (b"(", _) => Err(Stop::Wrong(0)),
        (b"", b"(") => Ok(1),
        (b"", _) => Err(Stop::Wrong(1)),
        _ => Ok(0),
    }
}

/// The formula whose rule the words are, the end of the line among them, of properties numbered 1 to `count`;
/// or where they stop being one.
pub fn read_formula(heap: Global, count: u8, words: &[Token<'_>]) -> Result<Formula, Stop>
    ensures { MatchResult result (λ x. FormulaSays count x (words_of words.now)) (λ e. Stopped count (words_of words.now) e) }
{
    if count == 0 {
        return Err(Stop::Wrong(0));
    }
    let start = Cursor {
        tokens: words,
        at: line_start(words)?,
    };
    let line = Reader { heap, most: count }.read_line(start, 0)?;
    if line.next == words.len() {
        Ok(line.formula)
    } else {
        Err(Stop::Wrong(line.next))
    }
}
