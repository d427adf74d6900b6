use crate::bytes::Class;

/// A word or a sign of the text, and the offset where it stands.
#[derive(Clone, Copy, PartialEq, Eq, Debug)]
pub struct Token<'a> {
    pub word: &'a [u8],
    pub at: usize,
}

/// A token with its class and the offset behind it.
#[derive(Clone, Copy, PartialEq, Eq, Debug)]
pub struct Found<'a> {
    pub token: Token<'a>,
    pub class: Class,
    pub end: usize,
}
