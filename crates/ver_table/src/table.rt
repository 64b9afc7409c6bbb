//! `Table`: a finite map that is changed by making the next one.
ghost use Rattle.std.specs.Prelude.{◌≡◌, ◌^◌, ◌<◌, ◌≤◌, map as each, vec_len, IfOk};
ghost use Rattle.std.specs.Arc.{arc_value};
ghost use Rattle.std.specs.Option.{option_copied};
ghost use Rattle.std.specs.FinMap as map;
ghost use Rattle.ver_table.specs.Entries.{pairs_of, IsInOrder};
ghost use Rattle.ver_table.specs.Pages.{pages_of, sheet_at, sheets_of, AreRevised, AreSheets};
ghost use Rattle.ver_table.specs.Rows.{Lists, set_all, page_count, numbered};

use crate::directory::Directory;
use crate::entries::{Entry, item_at};
use crate::runs::{Page, changed_page, first_run, page_of};
use netlist_pages::NoMemory;
use std::alloc::Global;
use std::marker::Model;
use std::sync::Arc;

/// A finite map from slots to items. A change makes a new table, which shares with the old one the items and the pages that the
/// change does not touch; the old table stays as it was. `P`, from 1 to 1024, is the number of slots to a page: a slot lies on
/// the page whose number is the slot divided by `P`. Only `pages` depends on it.
#[derive(Drop)]
pub struct Table<T, const P: usize> {
    /// The entries of each page with a slot that is set, by the page's number.
    pages: Directory<Vec<Entry<T>>>,
}

impl<T, const P: usize> Model for Table<T, P> {
    ghost use Rattle.std.specs.Ordering.{nat_cmp};
    ghost use Rattle.std.specs.FinMap as map;
    ghost use Rattle.std.specs.Coded.{coded_ℕ};

    ghost Value = { map.FinMap nat_cmp T };

    ghost coded = { map.code coded_ℕ T.code };

    ghost use Rattle.ver_table.specs.Pages.{map_of, pages_of, IsTable};

    ghost view = { λ table. map_of (pages_of table.pages) };

    ghost invariant = { λ table. IsTable P (pages_of table.pages) };
}

impl<T, const P: usize> Table<T, P> {
    /// The table in which no slot is set. Takes no memory.
    pub fn new(alloc: Global) -> Table<T, P>
        requires some { 1 ≤ P }
        requires few { P ≤ 1024 }
        ensures { result ≡ map.empty }
    {
        Table {
            pages: Directory::new(alloc),
        }
    }

    /// The item of a slot, where it is set. Takes no memory.
    pub fn get(&self, slot: u32) -> Option<&T>
        ensures { option_copied result ≡ map.get self.now slot }
    {
        item_at(entries_of(&self.pages, page_of(slot, P as u32)), slot)
    }

    /// The number of pages: of the different quotients of a set slot by `P`. Takes no memory.
    pub fn pages(&self) -> u64
        ensures { result ≡ page_count P self.now }
    {
        self.pages.len()
    }
}

impl<T: Drop, const P: usize> Table<T, P> {
    /// The table that has these items, one after the other, from slot 0 on. The one error is that an allocation was refused;
    /// the items are dropped then.
    pub fn of(alloc: Global, items: Vec<Arc<T>>) -> Result<Table<T, P>, NoMemory>
        requires some { 1 ≤ P }
        requires few { P ≤ 1024 }
        requires slots { vec_len items < 2 ^ 32 }
        ensures { IfOk result (λ table. Lists table (each arc_value items.items)) }
    {
        let entries = numbered(alloc, items)?;
        Table::new(alloc).put_all(entries.as_slice())
    }

    /// The table with this item at the slot, and with the old table's items at every other slot. The old table stays as
    /// it was. The one error is that an allocation was refused; the item is dropped then.
    pub fn put(&self, slot: u32, item: Arc<T>) -> Result<Table<T, P>, NoMemory>
        ensures { IfOk result (λ table. table ≡ map.insert self.now slot (arc_value item)) }
    {
        self.put_all(&[Entry { slot, item }])
    }

    /// The table with each of these items at its slot, and with the old table's items at every other slot. The slots rise from
    /// entry to entry. The old table stays as it was. The one error is that an allocation was refused.
    pub fn put_all(&self, changes: &[Entry<T>]) -> Result<Table<T, P>, NoMemory>
        requires rising { IsInOrder (pairs_of changes.now) }
        ensures { IfOk result (λ table. table ≡ set_all self.now (pairs_of changes.now)) }
    {
        let changed = changed_pages(&self.pages, P as u32, changes)?;
        let pages = self.pages.put_all(changed.as_slice())?;
        Ok(Table { pages })
    }
}

/// The entries of the page with the number: none where there is no such page.
fn entries_of<T>(pages: &Directory<Vec<Entry<T>>>, number: u32) -> &[Entry<T>]
    ensures { pairs_of result.now ≡ sheet_at (pages_of pages.now) number }
{
    match pages.get(number) {
        Some(entries) => entries.as_slice(),
        None => &[],
    }
}

/// The pages that these changes touch, with the changes made.
fn changed_pages<T: Drop>(
    pages: &Directory<Vec<Entry<T>>>,
    size: u32,
    changes: &[Entry<T>],
) -> Result<Vec<Page<T>>, NoMemory>
    requires some { 1 ≤ size }
    requires pages { AreSheets size (pages_of pages.now) }
    requires rising { IsInOrder (pairs_of changes.now) }
    ensures { IfOk result (λ changed. AreRevised size (pages_of pages.now) (pairs_of changes.now) (sheets_of changed.items)) }
{
    let alloc = pages.allocator();
    let mut changed = Vec::new(alloc);
    let mut left = changes;
    while let Some(run) = first_run(left, size) {
        let old = entries_of(pages, run.number);
        changed.push(changed_page(alloc, run.number, old, run.changes)?)?;
        left = run.rest;
    }
    Ok(changed)
}

/// The items with their slots, from 0 on.
fn numbered<T: Drop>(alloc: Global, items: Vec<Arc<T>>) -> Result<Vec<Entry<T>>, NoMemory>
    requires { vec_len items < 2 ^ 32 }
    ensures { IfOk result (λ entries. pairs_of entries.items ≡ numbered 0 (each arc_value items.items)) }
{
    let mut entries = Vec::with_capacity(alloc, items.len())?;
    let mut slot = 0;
    for item in items {
        entries.push(Entry { slot, item })?;
        slot += 1;
    }
    Ok(entries)
}
