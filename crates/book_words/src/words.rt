// A text cut into tokens.
ghost use Rattle.std.specs.Prelude.{◌≡◌, ◌^◌, ◌<◌, ◌≤◌, [], ◌∷◌, length, IfOk, ◌≢◌};
ghost use Rattle.book_words.specs.Cutting.{Cutting};
ghost use Rattle.book_words.specs.Cuts.{Points, lack_at};

use crate::bytes::Class;
use crate::cuts::next_token;
use crate::tokens::Token;
use std::alloc::{AllocError, Global};

/// The tokens of a text, where the last one ends, and its class.
#[derive(Drop)]
pub struct Words<'a> {
    pub tokens: Vec<Token<'a>>,
    pub end: usize,
    pub class: Class,
}

/// Cuts a text into tokens, up to its end or to the first misplaced blank.
pub fn cut<'a>(heap: Global, text: &'a [u8]) -> Result<Words<'a>, AllocError>
    ensures { IfOk result (λ w. Cutting text.now w) }
{
    let mut tokens = Vec::new(heap);
    let mut end = 0;
    let mut class = Class::Line;
    while let Some(found) = next_token(text, end, class) {
        tokens.push(found.token)?;
        end = found.end;
        class = found.class;
    }
    Ok(Words { tokens, end, class })
}

/// The n-th word of a text as it is told: an empty one where a line ends, a blank is misplaced or the text ends.
pub fn point<'a>(text: &'a [u8], words: &Words<'a>, n: usize) -> Token<'a>
    requires { words.now.end ≤ length text.now }
    ensures { Points text.now words.now.tokens.items words.now.end words.now.class n result }
{
    if let Some(token) = words.tokens.get(n) {
        return told(*token);
    }
    let at = if words.end == text.len() {
        words.end
    } else {
        lack_at(words.class, words.end)
    };
    Token {
        word: &text[words.end..words.end],
        at,
    }
}

/// A token as it is told: the end of a line as an empty word.
fn told<'a>(token: Token<'a>) -> Token<'a>
    ensures place { result.at ≡ token.entry.at }
    ensures line { token.entry.word.now ≡ 10 ∷ [] → result.word.now ≡ [] }
    ensures word { (token.entry.word.now ≢ 10 ∷ []) → result.word.now ≡ token.entry.word.now }
{
    match token.word {
        b"\n" => Token {
            word: &token.word[..0],
            ..token
        },
        _ => token,
    }
}

fn lack_at(class: Class, end: usize) -> usize
    requires { end < 2 ^ 63 }
    ensures { result ≡ lack_at class end }
{
    match class {
        Class::Line => end,
        Class::Sign | Class::Word => end + 1,
    }
}
