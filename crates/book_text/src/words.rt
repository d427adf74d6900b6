// Words and signs of a book text.
ghost use Rattle.std.specs.Prelude.{◌≡◌, [], slice_index_or};
ghost use Rattle.std.specs.Str.{bytes_eq};
ghost use Rattle.book_text.specs.Words.{quantifier_of, opening_of, kind_of, keyword_of};
ghost use Rattle.book_words.specs.Cuts.{words_of};

use book_words::Token;
use ftpl::properties::{Quantifier, VariableKind};

/// The word that a test begins with.
#[derive(Clone, Copy, PartialEq, Eq, Debug)]
pub(crate) enum Keyword {
    Name,
    In,
    Bound,
    Child,
    Same,
    Up,
    AtMost,
}

/// Whether two words are one.
// Stays: a public function, which stands; it is `==` of two words.
pub fn is(word: &[u8], text: &[u8]) -> bool
    ensures { result ≡ bytes_eq word.now text.now }
{
    word == text
}

/// The word at an index, an empty one behind the last.
pub fn word_at<'a>(tokens: &[Token<'a>], i: usize) -> &'a [u8]
    ensures { result.now ≡ slice_index_or (words_of tokens.now) i [] }
{
    tokens.get(i).map_or(b"", |token| token.word)
}

/// The quantifier that a word names.
// Stays: here and below functions and no `TryFrom`, since the types are another crate's and a word that names none is no error yet.
pub(crate) fn as_quantifier(word: &[u8]) -> Option<Quantifier>
    ensures { result ≡ quantifier_of word.now }
{
    match word {
        b"all" => Some(Quantifier::ForAll),
        b"some" => Some(Quantifier::Exists),
        _ => None,
    }
}

/// The quantifier that a property's rule opens with.
pub(crate) fn as_opening(word: &[u8]) -> Option<Quantifier>
    ensures { result ≡ opening_of word.now }
{
    as_quantifier(word.strip_prefix(b"rule=")?)
}

/// The kind that a word names.
pub(crate) fn as_kind(word: &[u8]) -> Option<VariableKind>
    ensures { result ≡ kind_of word.now }
{
    match word {
        b"comp" => Some(VariableKind::Component),
        b"prov" => Some(VariableKind::Provided),
        b"req" => Some(VariableKind::Required),
        b"par" => Some(VariableKind::Parameter),
        _ => None,
    }
}

/// The test that a word begins.
pub(crate) fn as_keyword(word: &[u8]) -> Option<Keyword>
    ensures { result ≡ keyword_of word.now }
{
    match word {
        b"name" => Some(Keyword::Name),
        b"in" => Some(Keyword::In),
        b"bound" => Some(Keyword::Bound),
        b"child" => Some(Keyword::Child),
        b"same" => Some(Keyword::Same),
        b"up" => Some(Keyword::Up),
        b"atmost" => Some(Keyword::AtMost),
        _ => None,
    }
}
