//! `Parts`: a list that lists share page by page.
ghost use Rattle.std.specs.Prelude.{◌≡◌, ◌↔◌, ◌++◌, ◌<◌, ◌≤◌, ◌^◌, [], ◌∷◌, drop, get_or, length, slice_get, slice_set, insert, remove, Some, IfOk, IsTrue, OnErr, OnOk};
ghost use Rattle.std.specs.Cmp.Lexicographic.{lists_equiv, lists_per, pointwise};
ghost use Rattle.std.specs.Option.{option_copied};

use crate::parts_ref::PartsRef;
use crate::rows::{
    Rows, all_items, count, insert_at, item_at, items_from, put_at, remove_at, rows_of, shared,
};
use netlist_pages::{Copied, Each, NoMemory};
use std::alloc::Global;
use std::marker::Model;

/// A list of items. Contracts see the list. Up to 512 items stand in one piece, and more in pages of up to 512: a list that is made from
/// another one shares the pages that stay, so that a change of one item costs a page and a number for each page.
#[derive(Debug, Drop)]
pub struct Parts<T> {
    rows: Rows<T>,
}

impl<T> Model for Parts<T> {
    ghost use Rattle.std.specs.Prelude.{List};
    ghost use Rattle.netlist_parts.specs.Rows.{items_of};

    ghost Value = { List T };

    ghost view = { λ p. items_of p.rows };
}

impl<T> Parts<T> {
    /// No items. Takes no memory.
    pub fn new(alloc: Global) -> Parts<T>
        ensures { result ≡ [] }
    {
        Parts {
            rows: Rows::Few(Vec::new(alloc)),
        }
    }

    /// The list of these items. Up to 512 of them take no memory.
    pub fn of(alloc: Global, items: Vec<T>) -> Result<Parts<T>, NoMemory>
    where
        T: Drop,
        ensures { IfOk result (λ made. made ≡ items.items) }
    {
        Ok(Parts {
            rows: rows_of(alloc, items)?,
        })
    }

    /// Lends the list.
    #[inline]
    pub fn lent(&self) -> PartsRef<'_, T>
        ensures { result ≡ self.now }
    {
        PartsRef { parts: Some(self) }
    }

    /// How many items there are.
    #[inline]
    pub fn len(&self) -> usize
        ensures { result ≡ length self.now }
    {
        count(&self.rows)
    }

    /// Whether there are no items.
    #[inline]
    pub fn is_empty(&self) -> bool
        ensures { IsTrue result ↔ (self.now ≡ []) }
    {
        self.len() == 0
    }

    /// The item at a place.
    #[inline]
    pub fn get(&self, place: usize) -> Option<&T>
        ensures { option_copied result ≡ slice_get self.now place }
    {
        item_at(&self.rows, place)
    }

    /// The item at a place that is there.
    #[inline]
    pub fn at(&self, place: usize) -> &T
        requires { place < length self.now }
        ensures there { slice_get self.now place ≡ Some result.now }
        ensures is { result.now ≡ get_or self.now place result.now }
    {
        match self.get(place) {
            Some(item) => item,
            None => unreachable!(),
        }
    }

    /// Each item, in order. Takes less time than to get them one by one.
    #[inline]
    pub fn iter(&self) -> Each<'_, T>
        ensures value { result ≡ self.now }
        ensures few { length result < 2 ^ 64 }
    {
        let _count = self.len();
        all_items(&self.rows)
    }

    /// Each item from a place on, in order.
    pub fn iter_from(&self, place: usize) -> Each<'_, T>
        ensures { result ≡ drop place self.now }
    {
        items_from(&self.rows, place)
    }
}

impl<T: Copied + Drop> Parts<T> {
    /// Puts another item at a place. It costs a page where another list has that page, and else nothing. Where memory is refused, the list
    /// stays.
    pub fn put(&mut self, alloc: Global, place: usize, item: T) -> Result<(), NoMemory>
        requires { place < length self.old }
        ensures ok { OnOk result (self.new ≡ slice_set self.old place item) }
        ensures err { OnErr result (self.new ≡ self.old) }
    {
        put_at(alloc, &mut self.rows, place, item)
    }

    /// Puts an item before the one at a place, or behind the last. Where memory is refused, the list stays.
    pub fn insert(&mut self, alloc: Global, place: usize, item: T) -> Result<(), NoMemory>
        requires { place ≤ length self.old }
        ensures ok { OnOk result (self.new ≡ insert self.old place item) }
        ensures err { OnErr result (self.new ≡ self.old) }
    {
        insert_at(alloc, &mut self.rows, place, item)
    }

    /// Adds an item behind the last. Where memory is refused, the list stays.
    pub fn push(&mut self, alloc: Global, item: T) -> Result<(), NoMemory>
        ensures ok { OnOk result (self.new ≡ self.old ++ item ∷ []) }
        ensures err { OnErr result (self.new ≡ self.old) }
    {
        let place = self.len();
        self.insert(alloc, place, item)
    }

    /// Takes the item at a place out; those behind it move up. Where memory is refused, the list stays.
    pub fn remove(&mut self, alloc: Global, place: usize) -> Result<T, NoMemory>
        requires { place < length self.old }
        ensures was { IfOk result (λ item. slice_get self.old place ≡ Some item) }
        ensures ok { OnOk result (self.new ≡ remove self.old place) }
        ensures err { OnErr result (self.new ≡ self.old) }
    {
        remove_at(alloc, &mut self.rows, place)
    }
}

impl<T: Copied + Drop> Copied for Parts<T> {
    ghost typed = { λ _. Unit {0} };

    fn copy(&self, alloc: Global) -> Result<Parts<T>, NoMemory> {
        Ok(Parts {
            rows: shared(alloc, &self.rows)?,
        })
    }
}

/// Whether two lists have the same items, one by one.
fn are_same<T: PartialEq>(items: Each<'_, T>, mut others: Each<'_, T>) -> bool
    ensures { result ≡ pointwise T.eq items.entry others.entry }
{
    for item in items {
        match others.next() {
            Some(other) => {
                if *item != *other {
                    return false;
                }
            }
            None => return false,
        }
    }
    others.next().is_none()
}

impl<T: PartialEq> PartialEq for Parts<T> {
    ghost eq = { pointwise T.eq };

    ghost laws = { lists_per T.laws };

    fn eq(&self, other: &Parts<T>) -> bool {
        are_same(self.iter(), other.iter())
    }
}

impl<T: Eq> Eq for Parts<T> {
    ghost laws = { lists_equiv T.Eq.laws };
}
