// The leaves of a trace.
ghost use Rattle.std.specs.Prelude.{◌≡◌};
ghost use Rattle.formula_text.specs.Words.{leaf_word_of, leaf_of};

use ftpl::formulas::Leaf;

/// The word that a leaf begins with.
#[derive(Clone, Copy, PartialEq, Eq, Debug)]
pub(crate) enum LeafWord {
    Always,
    Eventually,
    Never,
}

/// The leaf that a word begins.
// Stays: a function and no `TryFrom`, since a word that names none is no error yet.
pub(crate) fn as_leaf(word: &[u8]) -> Option<LeafWord>
    ensures { result ≡ leaf_word_of word.now }
{
    match word {
        b"always" => Some(LeafWord::Always),
        b"eventually" => Some(LeafWord::Eventually),
        b"never" => Some(LeafWord::Never),
        _ => None,
    }
}

/// What the word says of a property.
pub(crate) fn leaf_of(word: LeafWord, number: u8) -> Leaf
    ensures { result ≡ leaf_of word number }
{
    match word {
        LeafWord::Always => Leaf::Always(number),
        LeafWord::Eventually => Leaf::Eventually(number),
        LeafWord::Never => Leaf::Never(number),
    }
}
