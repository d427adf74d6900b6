// Book text: a whole book read from text, and a table and a book read together.
#![tactic(auto)]

mod bodies;
mod books;
mod both;
mod entries;
mod heads;
mod lines;

pub use books::{BookError, read_book};
pub use both::{TextsError, read_texts};
