// The first word of a line.
ghost use Rattle.std.specs.Prelude.{◌≡◌, ℕ, ◌≤◌, ◌++◌, decimal, Decides, MatchOption, ◌≢◌};
ghost use Rattle.whole_book.specs.declared.entries.Head.{Head as Announced};
ghost use Rattle.whole_book.specs.declared.entries.Head.TheVariants.{Property, Condition, Formula};
ghost use Rattle.whole_book.specs.Lines.{HeadSays};

use crate::entries::{Head, Listed};
use table_text::natural_between;

/// The number behind a key, if the word is just these two and the number lies between two bounds.
fn keyed_number(word: &[u8], key: &[u8], least: u8, most: u8) -> Option<u8>
    ensures { MatchOption result ((n : ℕ) → least ≤ n → n ≤ most → word.now ≢ key.now ++ decimal n) (λ n. (least ≤ n) × (n ≤ most) × (word.now ≡ key.now ++ decimal n)) }
{
    natural_between(word.strip_prefix(key)?, least, most)
}

/// Whether the word is the key and this number.
fn is_numbered(word: &[u8], key: &[u8], number: u8) -> bool
    ensures { Decides result (word.now ≡ key.now ++ decimal number) }
{
    keyed_number(word, key, number, number).is_some()
}

/// Whether the word announces the next property.
fn is_property(listed: Listed, word: &[u8]) -> bool
    ensures { Decides result (HeadSays listed Property word.now) }
{
    listed.conditions == 0
        && listed.formulas == 0
        && listed.properties < 64
        && is_numbered(word, b"prop=", listed.properties + 1)
}

/// The property that the word announces as a standing condition.
fn condition_number(listed: Listed, word: &[u8]) -> Option<u8>
    ensures { MatchOption result ((n : ℕ) → HeadSays listed (Condition n) word.now → ⊥) (λ n. HeadSays listed (Condition n) word.now) }
{
    if listed.formulas > 0 || listed.conditions >= 16 || listed.last >= listed.properties {
        return None;
    }
    keyed_number(word, b"hold=", listed.last + 1, listed.properties)
}

/// Whether the word announces the next formula.
fn is_formula(listed: Listed, word: &[u8]) -> bool
    ensures { Decides result (HeadSays listed Formula word.now) }
{
    listed.properties > 0
        && listed.formulas < 32
        && is_numbered(word, b"form=", listed.formulas + 1)
}

/// What the first word of a line announces, given what is listed before.
pub(crate) fn head_of(listed: Listed, word: &[u8]) -> Option<Head>
    ensures { MatchOption result ((h : Announced) → HeadSays listed h word.now → ⊥) (λ h. HeadSays listed h word.now) }
{
    if is_property(listed, word) {
        return Some(Head::Property);
    }
    if is_formula(listed, word) {
        return Some(Head::Formula);
    }
    condition_number(listed, word).map(Head::Condition)
}
