//! `Listed`: a value that several lists hold, with what it is looked for by.
ghost use Rattle.std.specs.Prelude.{◌≡◌, IfOk};
ghost use Rattle.std.specs.Arc.{arc_value};
ghost use Rattle.netlist_schema.specs.declared.listed.Mark.{Mark};

use netlist_pages::{Copied, NoMemory};
use std::alloc::Global;
use std::marker::Model;
use std::ops::Deref;
use std::sync::Arc;

/// What a value of a list is looked for by: the number of its name; and of a net, how many ends it has, the greatest number of an instance
/// with one of them, and a bit for each end, by the rest of its instance number by 32, the last bit for an end of the cell itself.
#[derive(Clone, Copy, Debug, PartialEq, Eq)]
pub struct Mark {
    pub name: u32,
    pub ends: u32,
    pub last: u32,
    pub bits: u32,
}

/// A value that has a mark.
pub trait Marks {
    /// Its mark.
    ghost mark: { Self → Mark };

    /// Makes its mark.
    fn made_mark(&self) -> Mark
        ensures { result ≡ mark self.now };
}

/// A value that several lists may hold, and that contracts see as the value, with its mark beside it. It is lent and never written to; in
/// its place comes another one.
#[derive(Debug, Drop)]
pub struct Listed<T: Marks> {
    mark: Mark,
    item: Arc<T>,
}

impl<T: Marks> Model for Listed<T> {
    ghost use Rattle.std.specs.Prelude.{◌≡◌};
    ghost use Rattle.std.specs.Arc.{arc_value};

    ghost Value = { T };

    ghost coded = { T.code };

    ghost view = { λ s. arc_value s.item };

    ghost invariant = { λ s. s.mark ≡ T.mark (arc_value s.item) };
}

impl<T: Marks> Listed<T> {
    /// The value, held by one.
    pub fn of(alloc: Global, item: T) -> Result<Listed<T>, NoMemory>
    where
        T: Drop,
        ensures { IfOk result (λ made. made ≡ item) }
    {
        Ok(Listed {
            mark: item.made_mark(),
            item: Arc::new(alloc, item)?,
        })
    }

    /// The same value, held by one more. Takes no memory; the one error is that its count is full.
    #[inline]
    pub fn share(&self) -> Result<Listed<T>, NoMemory>
        ensures { IfOk result (λ made. made ≡ self.now) }
    {
        Ok(Listed {
            mark: self.mark,
            item: Arc::try_clone(&self.item)?,
        })
    }

    /// What it is looked for by.
    #[inline]
    pub fn mark(&self) -> Mark
        ensures { result ≡ T.mark self.now }
    {
        self.mark
    }

    /// Lends the value.
    #[inline]
    pub fn get(&self) -> &T
        ensures { result.now ≡ self.now }
    {
        &*self.item
    }
}

impl<T: Marks> Deref for Listed<T> {
    type Target = T;

    ghost deref_gives = { λ s x. x ≡ s };

    #[inline]
    fn deref(&self) -> &T
        ensures { result.now ≡ self.now }
    {
        self.get()
    }
}

impl<T: Marks + PartialEq> PartialEq for Listed<T> {
    ghost eq = { T.eq };

    ghost laws = { T.laws };

    fn eq(&self, other: &Listed<T>) -> bool {
        *self.get() == *other.get()
    }
}

impl<T: Marks + Eq> Eq for Listed<T> {
    ghost laws = { T.Eq.laws };
}

impl<T: Marks + Drop> Copied for Listed<T> {
    ghost typed = { λ _. Unit {0} };

    fn copy(&self, _alloc: Global) -> Result<Listed<T>, NoMemory> {
        self.share()
    }
}
