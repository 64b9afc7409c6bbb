//! `Shared`: a value that several hold.
ghost use Rattle.std.specs.Prelude.{◌≡◌, IfOk};
ghost use Rattle.std.specs.Arc.{arc_value};

use netlist_pages::{Copied, NoMemory};
use std::alloc::Global;
use std::marker::Model;
use std::ops::Deref;
use std::sync::Arc;

/// A value that several may hold, and that contracts see as the value. It is lent and never written to; in its place comes
/// another one.
#[derive(Debug, Drop)]
pub struct Shared<T> {
    /// The value, and by how many it is held.
    pub item: Arc<T>,
}

impl<T> Model for Shared<T> {
    ghost use Rattle.std.specs.Arc.{arc_value};

    ghost Value = { T };

    ghost coded = { T.code };

    ghost view = { λ s. arc_value s.item };
}

impl<T> Shared<T> {
    /// The value, held by one.
    pub fn of(alloc: Global, item: T) -> Result<Shared<T>, NoMemory>
    where
        T: Drop,
        ensures { IfOk result (λ made. made ≡ item) }
    {
        Ok(Shared {
            item: Arc::new(alloc, item)?,
        })
    }

    /// The value, held by one, where there is one.
    pub fn of_some(alloc: Global, item: Option<T>) -> Result<Option<Shared<T>>, NoMemory>
    where
        T: Drop,
        ensures { IfOk result (λ made. made ≡ item) }
    {
        match item {
            Some(item) => Ok(Some(Shared::of(alloc, item)?)),
            None => Ok(None),
        }
    }

    /// The same value, held by one more. Takes no memory; the one error is that its count is full.
    #[inline]
    pub fn share(&self) -> Result<Shared<T>, NoMemory>
        ensures { IfOk result (λ made. made ≡ self.now) }
    {
        Ok(Shared {
            item: Arc::try_clone(&self.item)?,
        })
    }

    /// Lends the value.
    #[inline]
    pub fn get(&self) -> &T
        ensures { result.now ≡ self.now }
    {
        &*self.item
    }
}

impl<T> Deref for Shared<T> {
    type Target = T;

    ghost deref_gives = { λ s x. x ≡ s };

    #[inline]
    fn deref(&self) -> &T
        ensures { result.now ≡ self.now }
    {
        self.get()
    }
}

impl<T: PartialEq> PartialEq for Shared<T> {
    ghost eq = { T.eq };

    ghost laws = { T.laws };

    fn eq(&self, other: &Shared<T>) -> bool {
        *self.get() == *other.get()
    }
}

impl<T: Eq> Eq for Shared<T> {
    ghost laws = { T.Eq.laws };
}

impl<T: Drop> Copied for Shared<T> {
    ghost typed = { λ _. Unit {0} };

    fn copy(&self, _alloc: Global) -> Result<Shared<T>, NoMemory> {
        self.share()
    }
}
