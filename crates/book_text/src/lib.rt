// Book text: properties, standing conditions and formulas read from text.
#![tactic(auto)]

mod cursors;
mod joins;
mod operands;
mod parts;
mod places;
mod rules;
mod scopes;
mod single_tests;
mod texts;
mod words;

pub use cursors::Cursor;
pub use numerals::natural_between;
pub use parts::Stop;
pub use rules::read_property;
pub use texts::{ReadError, read_rule_text};
pub use words::{is, word_at};
