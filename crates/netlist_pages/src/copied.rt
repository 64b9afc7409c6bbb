//! `Copied`: an equal value, in memory of its own.
ghost use Rattle.std.specs.Prelude.{◌≡◌, IfOk, IfSome, OnOk};

use crate::memory::NoMemory;
use std::alloc::Global;

/// A value that can be copied, where there is memory.
pub trait Copied: Sized {
    /// What holds of each value by its type.
    ghost typed: { Self → Type 0 };

    /// An equal value. The one error is that an allocation was refused.
    fn copy(&self, alloc: Global) -> Result<Self, NoMemory>
        ensures same { IfOk result (λ made. made ≡ self.now) }
        ensures typed { OnOk result (typed self.now) };
}

impl<T: Copied + Drop> Copied for Option<T> {
    ghost typed = { λ o. IfSome o T.typed };

    fn copy(&self, alloc: Global) -> Result<Option<T>, NoMemory> {
        match self {
            Some(inner) => Ok(Some(inner.copy(alloc)?)),
            None => Ok(None),
        }
    }
}
