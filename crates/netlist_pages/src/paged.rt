//! `Paged`: a list in pages, which lists share.
ghost use Rattle.std.specs.Prelude.{◌≡◌, ◌++◌, ◌<◌, ◌≤◌, [], ◌∷◌, drop, length, slice_get, slice_set, insert, remove, Some, IfOk, OnErr, OnOk};
ghost use Rattle.std.specs.Option.{option_copied};
ghost use Rattle.netlist_pages.specs.Pages.{listed};

use crate::copied::Copied;
use crate::each::Each;
use crate::memory::NoMemory;
use crate::page::{Page, behind};
use crate::pages::{append, insert_in, put_in, remove_in};
use crate::spots::{ROOM, spot_of};
use std::alloc::Global;
use std::marker::Model;

/// The items of a list in pages, which contracts see as the list. One that is made from another one shares the pages that stay.
#[derive(Debug, Drop)]
pub struct Paged<T> {
    pages: Vec<Page<T>>,
    ends: Vec<usize>,
    count: usize,
}

impl<T> Model for Paged<T> {
    ghost use Rattle.std.specs.Prelude.{List};
    ghost use Rattle.netlist_pages.specs.Pages.{listed, IsRow};

    ghost Value = { List T };

    ghost view = { λ r. listed r.pages.items };

    ghost invariant = { λ r. IsRow r.pages.items r.ends.items r.count };
}

impl<T> Paged<T> {
    /// No items. Takes no memory.
    pub fn new(alloc: Global) -> Paged<T>
        ensures { result ≡ [] }
    {
        Paged {
            pages: Vec::new(alloc),
            ends: Vec::new(alloc),
            count: 0,
        }
    }

    /// How many items there are.
    #[inline]
    pub fn len(&self) -> usize
        ensures { result ≡ length self.now }
    {
        self.count
    }

    /// The item at a place.
    #[inline]
    pub fn get(&self, place: usize) -> Option<&T>
        ensures { option_copied result ≡ slice_get self.now place }
    {
        match spot_of(self.pages.as_slice(), self.ends.as_slice(), place) {
            Some(spot) => self.pages[spot.page].get(spot.at),
            None => None,
        }
    }

    /// Each item from a place on, in order.
    pub fn iter_from(&self, place: usize) -> Each<'_, T>
        ensures { result ≡ drop place self.now }
    {
        match spot_of(self.pages.as_slice(), self.ends.as_slice(), place) {
            Some(spot) => {
                let page = self.pages[spot.page].as_slice();
                let pages = self.pages.as_slice();
                let first = behind(page, spot.at);
                let others = behind(pages, spot.page + 1);
                Each {
                    page: first,
                    pages: others,
                }
            }
            None => Each {
                page: &[],
                pages: &[],
            },
        }
    }

    /// Each item, in order.
    #[inline]
    pub fn iter(&self) -> Each<'_, T>
        ensures { result ≡ self.now }
    {
        Each {
            page: &[],
            pages: self.pages.as_slice(),
        }
    }

    /// Adds a page behind the last, where there is memory.
    fn append(&mut self, alloc: Global, page: Vec<T>) -> Result<(), NoMemory>
    where
        T: Drop,
        requires some { 0 < length page.items }
        requires few { length page.items ≤ 512 }
        ensures { OnOk result (self.new ≡ self.old ++ page.items) }
    {
        let size = page.len();
        if self.count >= usize::MAX - ROOM {
            return Err(NoMemory);
        }
        let page = Page::of(alloc, page)?;
        append(&mut self.pages, &mut self.ends, page)?;
        self.count += size;
        Ok(())
    }

    /// The list of these items.
    pub fn of(alloc: Global, items: Vec<T>) -> Result<Paged<T>, NoMemory>
    where
        T: Drop,
        ensures { IfOk result (λ made. made ≡ items.items) }
    {
        let mut made = Paged::new(alloc);
        let mut last = Vec::with_capacity(alloc, ROOM)?;
        for item in items {
            add_behind(alloc, &mut made, &mut last, item)?;
        }
        if !last.is_empty() {
            made.append(alloc, last)?;
        }
        Ok(made)
    }

    /// The same list, which shares the pages.
    pub fn share(&self, alloc: Global) -> Result<Paged<T>, NoMemory>
    where
        T: Drop,
        ensures { IfOk result (λ made. made ≡ self.now) }
    {
        let mut pages = Vec::with_capacity(alloc, self.pages.len())?;
        for page in self.pages.as_slice() {
            pages.push(page.share()?)?;
        }
        let mut ends = Vec::with_capacity(alloc, self.ends.len())?;
        ends.extend_from_slice(self.ends.as_slice())?;
        Ok(Paged {
            pages,
            ends,
            count: self.count,
        })
    }
}

/// Adds an item behind those of a list and of the page that is to be its last, which becomes another one where it is full.
fn add_behind<T: Drop>(
    alloc: Global,
    made: &mut Paged<T>,
    last: &mut Vec<T>,
    item: T,
) -> Result<(), NoMemory>
    requires { length last.old.items ≤ 512 }
    ensures few { OnOk result (length last.new.items ≤ 512) }
    ensures items { OnOk result (made.new ++ last.new.items ≡ (made.old ++ last.old.items) ++ item ∷ []) }
{
    if last.len() < ROOM {
        last.push(item)?;
        return Ok(());
    }
    let mut next = Vec::with_capacity(alloc, ROOM)?;
    next.push(item)?;
    let full = std::mem::replace(last, next);
    made.append(alloc, full)
}

impl<T: Copied + Drop> Paged<T> {
    /// Puts another item at a place. It costs the page of that place, where another list has that page, and else nothing. Where memory is
    /// refused, the list stays.
    pub fn put(&mut self, place: usize, item: T) -> Result<(), NoMemory>
        requires { place < length self.old }
        ensures ok { OnOk result (self.new ≡ slice_set self.old place item) }
        ensures err { OnErr result (self.new ≡ self.old) }
    {
        let alloc = *self.pages.allocator();
        put_in(alloc, &mut self.pages, self.ends.as_slice(), place, item)
    }

    /// Puts an item before the one at a place, or behind the last. Where memory is refused, the list stays.
    pub fn insert(&mut self, place: usize, item: T) -> Result<(), NoMemory>
        requires { place ≤ length self.old }
        ensures ok { OnOk result (self.new ≡ insert self.old place item) }
        ensures err { OnErr result (self.new ≡ self.old) }
    {
        if self.count >= usize::MAX - 1 {
            return Err(NoMemory);
        }
        let alloc = *self.pages.allocator();
        insert_in(alloc, &mut self.pages, &mut self.ends, place, item)?;
        self.count += 1;
        Ok(())
    }

    /// Takes the item at a place out; those behind it move up. Where memory is refused, the list stays.
    pub fn remove(&mut self, place: usize) -> Result<T, NoMemory>
        requires { place < length self.old }
        ensures was { IfOk result (λ item. slice_get self.old place ≡ Some item) }
        ensures ok { OnOk result (self.new ≡ remove self.old place) }
        ensures err { OnErr result (self.new ≡ self.old) }
    {
        let alloc = *self.pages.allocator();
        let item = remove_in(alloc, &mut self.pages, &mut self.ends, place)?;
        self.count -= 1;
        Ok(item)
    }
}
