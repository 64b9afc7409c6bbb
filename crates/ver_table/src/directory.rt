//! `Directory`: a finite map of two levels, under a table.
ghost use Rattle.std.specs.Prelude.{◌≡◌, ◌^◌, ◌<◌, IfOk, []};
ghost use Rattle.std.specs.Option.{option_copied};
ghost use Rattle.std.specs.FinMap as map;
ghost use Rattle.ver_table.specs.declared.directory.TheConstants.{GROUP};
ghost use Rattle.ver_table.specs.Entries.{pairs_of, IsInOrder};
ghost use Rattle.ver_table.specs.Pages.{sheets_of, sheet_at, AreRevised, AreSheets};
ghost use Rattle.ver_table.specs.Rows.{set_all};

use crate::entries::{Entry, changed_entries, item_at};
use crate::runs::{Page, changed_page, first_run, page_of};
use netlist_pages::NoMemory;
use std::alloc::Global;
use std::marker::Model;

/// How many numbers one group has.
const GROUP: u32 = 64;

/// A finite map from numbers to items. A change makes a new directory, which shares with the old one the items and the groups that
/// the change does not touch; the old one stays as it was. A number lies in the group whose number is this one divided by `GROUP`.
#[derive(Drop)]
pub(crate) struct Directory<T> {
    /// The groups with a number that is set, in order.
    groups: Vec<Page<T>>,
}

impl<T> Model for Directory<T> {
    ghost use Rattle.std.specs.Ordering.{nat_cmp};
    ghost use Rattle.std.specs.FinMap as map;
    ghost use Rattle.std.specs.Coded.{coded_ℕ};
    ghost use Rattle.ver_table.specs.declared.directory.TheConstants.{GROUP};
    ghost use Rattle.ver_table.specs.Pages.{map_of, sheets_of, AreSheets};

    ghost Value = { map.FinMap nat_cmp T };

    ghost coded = { map.code coded_ℕ T.code };

    ghost view = { λ directory. map_of (sheets_of directory.groups.items) };

    ghost invariant = { λ directory. AreSheets GROUP (sheets_of directory.groups.items) };
}

impl<T> Directory<T> {
    /// The directory in which no number is set. Takes no memory.
    pub(crate) fn new(alloc: Global) -> Directory<T>
        ensures { result ≡ map.empty }
    {
        Directory {
            groups: Vec::new(alloc),
        }
    }

    /// The allocator of the directory's lists.
    pub(crate) fn allocator(&self) -> Global {
        *self.groups.allocator()
    }

    /// The item of a number, where it is set. Takes no memory.
    pub(crate) fn get(&self, number: u32) -> Option<&T>
        ensures { option_copied result ≡ map.get self.now number }
    {
        item_at(
            entries_of(self.groups.as_slice(), page_of(number, GROUP)),
            number,
        )
    }

    /// How many numbers are set, where they fit 64 bits. Takes no memory.
    pub(crate) fn len(&self) -> u64
        requires { map.len self.now < 2 ^ 64 }
        ensures { result ≡ map.len self.now }
    {
        let mut count = 0;
        for group in &self.groups {
            count += group.item.len() as u64;
        }
        count
    }
}

impl<T: Drop> Directory<T> {
    /// The directory with each of these items at its number, and with the old directory's items at every other number. The numbers
    /// rise from entry to entry. The old directory stays as it was. The one error is that an allocation was refused.
    pub(crate) fn put_all(&self, changes: &[Entry<T>]) -> Result<Directory<T>, NoMemory>
        requires { IsInOrder (pairs_of changes.now) }
        ensures { IfOk result (λ directory. directory ≡ set_all self.now (pairs_of changes.now)) }
    {
        let alloc = self.allocator();
        let old = self.groups.as_slice();
        let changed = changed_groups(alloc, old, changes)?;
        let groups = changed_entries(alloc, old, changed.as_slice())?;
        Ok(Directory { groups })
    }
}

/// The entries of the group with the number: none where there is no such group.
fn entries_of<T>(groups: &[Page<T>], number: u32) -> &[Entry<T>]
    requires { IsInOrder (sheets_of groups.now) }
    ensures { pairs_of result.now ≡ sheet_at (sheets_of groups.now) number }
{
    match item_at(groups, number) {
        Some(entries) => entries.as_slice(),
        None => &[],
    }
}

/// The groups that these changes touch, with the changes made.
fn changed_groups<T: Drop>(
    alloc: Global,
    groups: &[Page<T>],
    changes: &[Entry<T>],
) -> Result<Vec<Page<T>>, NoMemory>
    requires groups { AreSheets GROUP (sheets_of groups.now) }
    requires rising { IsInOrder (pairs_of changes.now) }
    ensures { IfOk result (λ changed. AreRevised GROUP (sheets_of groups.now) (pairs_of changes.now) (sheets_of changed.items)) }
{
    let mut changed = Vec::new(alloc);
    let mut left = changes;
    while let Some(run) = first_run(left, GROUP) {
        let old = entries_of(groups, run.number);
        changed.push(changed_page(alloc, run.number, old, run.changes)?)?;
        left = run.rest;
    }
    Ok(changed)
}
