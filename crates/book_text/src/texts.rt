// The rule of a property as text.
ghost use Rattle.std.specs.Prelude.{◌≡◌, MatchResult};
ghost use Rattle.book_text.specs.declared.texts.ReadError.TheVariants.{Memory};
ghost use Rattle.book_text.specs.Texts.{RuleText, Refused};

use crate::parts::Stop;
use crate::rules::read_property;
use book_words::{Token, cut, point};
use ftpl::properties::Property;
use std::alloc::{AllocError, Global};

/// Why a text is refused.
#[derive(Clone, Copy, PartialEq, Eq, Debug)]
pub enum ReadError<'a> {
    /// The first word that cannot stand there, a part of the text, and the offset where it stands.
    Wrong(Token<'a>),
    Memory,
}

impl From<AllocError> for ReadError<'_> {
    ghost from_gives = { λ _ e. e ≡ Memory };

    fn from(_error: AllocError) -> Self {
        Self::Memory
    }
}

/// Reads one rule with the end of its line; or hands out the first wrong word.
pub fn read_rule_text<'a>(heap: Global, text: &'a [u8]) -> Result<Property, ReadError<'a>>
    ensures { MatchResult result (λ x. RuleText text.now x) (λ e. Refused text.now e) }
{
    let words = cut(heap, text)?;
    // Stays: an error here is a word of the text, which `Stop` does not have, so no `From` makes it.
    match read_property(heap, words.tokens.as_slice()) {
        Ok(property) if words.end == text.len() => Ok(property),
        Ok(_) => Err(ReadError::Wrong(point(text, &words, words.tokens.len()))),
        Err(Stop::Wrong(n)) => Err(ReadError::Wrong(point(text, &words, n))),
        Err(Stop::Memory) => Err(ReadError::Memory),
    }
}
