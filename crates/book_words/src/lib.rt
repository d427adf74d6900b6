// The words and signs of a book text: how a text is cut into them, and where blanks may stand.
#![tactic(auto)]

mod bytes;
mod cuts;
mod tokens;
mod words;

pub use bytes::{ByteKind, Class};
pub use tokens::{Found, Token};
pub use words::{Words, cut, point};
