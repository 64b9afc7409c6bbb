//! Why words were not read.
ghost use Rattle.std.specs.Prelude.{◌≡◌};
ghost use Rattle.script_words.specs.declared.unread.Unread.TheVariants.{NoMemory};

use netlist_schema::NoMemory;
use std::alloc::{AllocError, AllocFailed};

/// Why words were not read.
#[derive(Clone, Copy)]
pub enum Unread {
    /// They spell nothing of the wanted kind.
    Bad,
    /// An allocation was refused.
    NoMemory,
}

impl From<NoMemory> for Unread {
    ghost from_gives = { λ _ e. e ≡ NoMemory };

    fn from(_e: NoMemory) -> Unread {
        Unread::NoMemory
    }
}

impl From<AllocError> for Unread {
    ghost from_gives = { λ _ e. e ≡ NoMemory };

    fn from(_e: AllocError) -> Unread {
        Unread::NoMemory
    }
}

impl<T: Drop> From<AllocFailed<T>> for Unread {
    ghost from_gives = { λ _ e. e ≡ NoMemory };

    fn from(_e: AllocFailed<T>) -> Unread {
        Unread::NoMemory
    }
}
