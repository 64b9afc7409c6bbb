//! Why a text has no tokens from a place on.
ghost use Rattle.std.specs.Prelude.{◌≡◌};
ghost use Rattle.edif_lexer.specs.declared.errors.LexError.TheVariants.{NoMemory};

use edif_spelling_spec::LexKind;
use netlist_schema::NoMemory;
use std::alloc::{AllocError, AllocFailed};

/// What ended the reading of a text. From then on the lexer answers the same error at each call.
#[derive(Clone, Copy, Debug, PartialEq, Eq)]
pub enum LexError {
    /// The first lexical fault of the text, and the number of bytes before it.
    At { kind: LexKind, place: u64 },
    /// An allocation was refused, or the text is longer than a `u64` counts.
    NoMemory,
}

impl From<NoMemory> for LexError {
    ghost from_gives = { λ _ e. e ≡ NoMemory };

    fn from(_e: NoMemory) -> LexError {
        LexError::NoMemory
    }
}

impl From<AllocError> for LexError {
    ghost from_gives = { λ _ e. e ≡ NoMemory };

    fn from(_e: AllocError) -> LexError {
        LexError::NoMemory
    }
}

impl<T: Drop> From<AllocFailed<T>> for LexError {
    ghost from_gives = { λ _ e. e ≡ NoMemory };

    fn from(_e: AllocFailed<T>) -> LexError {
        LexError::NoMemory
    }
}
