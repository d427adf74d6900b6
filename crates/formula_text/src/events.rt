// Events and lists of them.
ghost use Rattle.std.specs.Prelude.{◌≡◌, ℕ, ◌≤◌, MatchResult};
ghost use Rattle.formula_text.specs.Words.{event_of, rule_words};
ghost use Rattle.formula_text.specs.Rules.{with_bit, with_event};
ghost use Rattle.formula_text.specs.States.{State, operation as operation_next, bracket};
ghost use Rattle.formula_text.specs.Took.{Lists, EventsTook, IsList, ListTook, Failed};

use crate::words::{expect, rule_word};
use book_text::{Cursor, Stop, natural_between};
use ftpl::formulas::EventList;

/// What is said of an operation in a list of events.
#[derive(Clone, Copy, PartialEq, Eq, Debug)]
pub(crate) enum EventWord {
    Called,
    Normal,
    Exceptional,
    /// normal or exceptional
    Terminates,
}

/// Events that were read, and the index behind them.
#[derive(Clone, Copy, PartialEq, Eq, Debug)]
pub(crate) struct Events {
    pub list: EventList,
    pub next: usize,
}

/// What a word says of an operation.
// Stays: a function and no `TryFrom`, since a word that names none is no error yet.
fn as_event(word: &[u8]) -> Option<EventWord>
    ensures { result ≡ event_of word.now }
{
    match word {
        b"called" => Some(EventWord::Called),
        b"normal" => Some(EventWord::Normal),
        b"exceptional" => Some(EventWord::Exceptional),
        b"terminates" => Some(EventWord::Terminates),
        _ => None,
    }
}

/// The mask with the operation too.
fn with_bit(mask: u64, operation: u8) -> u64
    requires { operation ≤ 63 }
    ensures { result ≡ with_bit mask operation }
{
    mask | (1 << operation)
}

/// The list with one event more.
fn with_event(list: EventList, operation: u8, word: EventWord) -> EventList
    requires { operation ≤ 63 }
    ensures { result ≡ with_event list operation word }
{
    let mut more = list;
    match word {
        EventWord::Called => more.called = with_bit(list.called, operation),
        EventWord::Normal => more.normal = with_bit(list.normal, operation),
        EventWord::Exceptional => more.exceptional = with_bit(list.exceptional, operation),
        EventWord::Terminates => {
            more.normal = with_bit(list.normal, operation);
            more.exceptional = with_bit(list.exceptional, operation);
        }
    }
    more
}

/// Reads the events up to the closing bracket, which follow those of the list.
fn rest_of_list(list: EventList, cursor: Cursor<'_>) -> Result<Events, Stop>
    ensures { (n : ℕ) (st : State) → MatchResult result (λ x. EventsTook list (rule_words cursor.entry.tokens.now) cursor.entry.at x) (λ e. Failed n (Lists list) (operation_next st) (rule_words cursor.entry.tokens.now) cursor.entry.at e) }
{
    let tokens = cursor.tokens;
    let at = cursor.at;
    let operation = natural_between(rule_word(tokens, at), 1, 63).ok_or(Stop::Wrong(at))?;
    let word = as_event(rule_word(tokens, at + 1)).ok_or(Stop::Wrong(at + 1))?;
    let more = with_event(list, operation, word);
    match rule_word(tokens, at + 2) {
        b"," => rest_of_list(more, cursor.to(at + 3)),
        b"]" => Ok(Events {
            list: more,
            next: at + 3,
        }),
        _ => Err(Stop::Wrong(at + 2)),
    }
}

/// Reads a list of events in brackets.
pub(crate) fn event_list(cursor: Cursor<'_>) -> Result<Events, Stop>
    ensures { (n : ℕ) (st : State) → MatchResult result (λ x. ListTook (rule_words cursor.entry.tokens.now) cursor.entry.at x) (λ e. Failed n IsList (bracket st) (rule_words cursor.entry.tokens.now) cursor.entry.at e) }
{
    let none = EventList {
        called: 0,
        normal: 0,
        exceptional: 0,
    };
    rest_of_list(none, expect(cursor, b"[")?)
}
