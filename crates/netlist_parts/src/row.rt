//! `Row`: a list of values.
ghost use Rattle.std.specs.Prelude.{All, ◌≡◌, ◌++◌, [], ◌∷◌, ◌<◌, ◌≤◌, OnErr, OnOk, length, remove, slice_get, slice_set, take, Some};
ghost use Rattle.std.specs.Cmp.Lexicographic.{lists_equiv, lists_per, pointwise};
ghost use Rattle.netlist_parts.specs.Put.{put_at};

use netlist_pages::{Copied, NoMemory};
use std::alloc::Global;
use std::marker::Model;

/// A list of values, as contracts see it. It is made from a `Vec` and gives it back, and neither takes memory.
#[derive(Debug, Drop)]
pub struct Row<T> {
    /// The values.
    pub items: Vec<T>,
}

impl<T> Model for Row<T> {
    ghost use Rattle.std.specs.Prelude.{List};

    ghost Value = { List T };

    ghost view = { λ r. r.items.items };
}

impl<T> Row<T> {
    /// The list of these items. Takes no memory.
    pub fn of(items: Vec<T>) -> Row<T>
        ensures { result ≡ items.items }
    {
        Row { items }
    }

    /// Lends the list, in order.
    pub fn as_slice(&self) -> &[T]
        ensures { result.now ≡ self.now }
    {
        self.items.as_slice()
    }

    /// Gives the list back. Takes no memory.
    pub fn into_vec(self) -> Vec<T>
        ensures { result.items ≡ self }
    {
        let Row { items } = self;
        items
    }

    /// Adds an item at the end. Where memory is refused, the item is dropped and the list stays.
    pub fn push(&mut self, item: T) -> Result<(), NoMemory>
    where
        T: Drop,
        ensures ok { OnOk result (self.new ≡ self.old ++ item ∷ []) }
        ensures err { OnErr result (self.new ≡ self.old) }
    {
        match self.items.push(item) {
            Ok(()) => Ok(()),
            Err(_) => Err(NoMemory),
        }
    }

    /// Puts an item at a place: it replaces the one there, or goes behind the last, where the place is their number. Where
    /// memory is refused, the list stays; in place of another one it takes none.
    pub fn put(&mut self, place: usize, item: T) -> Result<(), NoMemory>
    where
        T: Drop,
        requires { place ≤ length self.old }
        ensures ok { OnOk result (self.new ≡ put_at self.old place item) }
        ensures err { OnErr result (self.new ≡ self.old) }
    {
        if place < self.items.len() {
            self.items[place] = item;
            return Ok(());
        }
        self.push(item)
    }

    /// Cuts the list back to its first `count` items, where there are more.
    pub fn cut(&mut self, count: usize)
    where
        T: Drop,
        ensures { self.new ≡ take count self.old }
    {
        self.items.truncate(count);
    }

    /// Puts another item at a place. Takes no memory.
    pub fn set(&mut self, place: usize, item: T)
    where
        T: Drop,
        requires { place < length self.old }
        ensures { self.new ≡ slice_set self.old place item }
    {
        self.items[place] = item;
    }

    /// Puts another item at a place, and gives the one that stood there. Takes no memory.
    pub fn replace(&mut self, place: usize, item: T) -> T
        requires { place < length self.old }
        ensures was { slice_get self.old place ≡ Some result }
        ensures put { self.new ≡ slice_set self.old place item }
    {
        std::mem::replace(&mut self.items[place], item)
    }

    /// Takes the item at a place out; those behind it move up. Takes no memory.
    pub fn remove(&mut self, place: usize) -> T
        requires { place < length self.old }
        ensures was { slice_get self.old place ≡ Some result }
        ensures out { self.new ≡ remove self.old place }
    {
        self.items.remove(place)
    }
}

impl<T: PartialEq> PartialEq for Row<T> {
    ghost eq = { pointwise T.eq };

    ghost laws = { lists_per T.laws };

    fn eq(&self, other: &Row<T>) -> bool {
        self.as_slice() == other.as_slice()
    }
}

impl<T: Eq> Eq for Row<T> {
    ghost laws = { lists_equiv T.Eq.laws };
}

impl<T: Copied + Drop> Copied for Row<T> {
    ghost typed = { λ row. All T.typed row };

    fn copy(&self, alloc: Global) -> Result<Row<T>, NoMemory> {
        let mut copies = Vec::with_capacity(alloc, self.items.len())?;
        for item in self.as_slice() {
            copies.push(item.copy(alloc)?)?;
        }
        Ok(Row::of(copies))
    }
}
