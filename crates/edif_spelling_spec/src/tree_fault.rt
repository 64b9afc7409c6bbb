//! What may be wrong with a row of tokens.

/// What is wrong with a row of tokens that is to be one form, no form in it deeper than level 256.
#[derive(Clone, Copy, Debug, PartialEq, Eq)]
pub enum TreeKind {
    /// A first token that is neither `(` nor `)`, at that token.
    NotForm,
    /// A `)` with nothing to close, at that `)`.
    ExtraClose,
    /// A `(` that begins level 257, at that `(`.
    TooDeep,
    /// Another token than `)` behind the file's form, at that token.
    Trailing,
    /// An end before the file's form is closed, at the length of the input. An empty input has this fault.
    Unended,
}
