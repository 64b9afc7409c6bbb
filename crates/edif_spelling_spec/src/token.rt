//! The tokens of a text, and what may be wrong with its bytes.
use netlist_schema::{Ident, Text};

/// What a token is. A word is seen as its name, without a leading `&`, and a string as the bytes that it stands for.
#[derive(Debug, PartialEq, Eq, Drop)]
pub enum TokenKind {
    /// `(`.
    LeftParen,
    /// `)`.
    RightParen,
    /// A name: a keyword, or an identifier with or without `&`.
    Word(Ident),
    /// A number of 64 bits with sign.
    Integer(i64),
    /// The bytes that a string stands for, its escapes resolved.
    String(Text),
}

/// A token, and the number of bytes before it.
#[derive(Debug, PartialEq, Eq, Drop)]
pub struct Token {
    /// What it is.
    pub kind: TokenKind,
    /// How many bytes of the text stand before it.
    pub place: u64,
}

/// What is wrong with the bytes of a text.
#[derive(Clone, Copy, Debug, PartialEq, Eq)]
pub enum LexKind {
    /// A word that begins with a digit or a sign and is no integer of 64 bits, at its first byte.
    BadNumber,
    /// A byte outside strings that no token may hold, or another word that is no identifier, at its first byte.
    BadByte,
    /// An escape in a string that is no row of codes up to 255, at the `%` that opens it.
    BadEscape,
    /// A string that the text ends, with no bad escape in it, at its opening quote.
    BadString,
}
