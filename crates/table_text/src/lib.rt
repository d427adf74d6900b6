// Table text: reading, writing, and the first wrong word.
#![tactic(auto)]

mod lines;
mod puts;
mod reads;
mod words;
mod writes;

pub use lines::{Key, Line};
pub use numerals::{natural_between, value_within};
pub use puts::{is_within, put_table};
pub use reads::read_table;
pub use words::{WrongWord, wrong_word};
pub use writes::{LINE_BYTES, text_of_table, write_table};
