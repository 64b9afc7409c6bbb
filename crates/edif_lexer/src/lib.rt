//! Bytes in pieces to tokens. However a text is cut, its tokens and its first fault are the same.
#![tactic(auto)]

mod errors;
mod lexing;
mod runs;
mod strings;
mod words;

pub use edif_spelling_spec::{LexKind, Token, TokenKind};
pub use errors::LexError;
pub use lexing::{Lexer, State};
pub use strings::decode;
