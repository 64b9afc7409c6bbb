//! Entries in the order of their slots.
ghost use Rattle.std.specs.Prelude.{◌≡◌, ◌++◌, IfOk, OnOk};
ghost use Rattle.std.specs.Option.{option_copied};
ghost use Rattle.std.specs.Ordering.{nat_cmp};
ghost use Rattle.std.specs.FinMap.{find};
ghost use Rattle.ver_table.specs.Entries.{pairs_of, pair_of, with_all, IsInOrder, IsPlace, GivesWay};

use netlist_pages::NoMemory;
use std::alloc::Global;
use std::ops::Range;
use std::sync::Arc;

/// A slot with its item.
#[derive(Drop)]
pub struct Entry<T> {
    pub slot: u32,
    pub item: Arc<T>,
}

/// Where the slot stands among the entries, or else where it belongs.
fn place_of<T>(entries: &[Entry<T>], slot: u32) -> Result<usize, usize>
    requires { IsInOrder (pairs_of entries.now) }
    ensures { IsPlace (pairs_of entries.now) slot result }
{
    entries.binary_search_by_key(&slot, |entry| entry.slot)
}

/// The item of the entry with the slot, where there is one.
pub(crate) fn item_at<T>(entries: &[Entry<T>], slot: u32) -> Option<&T>
    requires { IsInOrder (pairs_of entries.now) }
    ensures { option_copied result ≡ find nat_cmp slot (pairs_of entries.now) }
{
    match place_of(entries, slot) {
        Ok(at) => Some(&*entries[at].item),
        Err(_) => None,
    }
}

/// The entries that give way to a new one at the slot: the one with the slot, or none where the new one belongs.
fn old_entry<T>(entries: &[Entry<T>], slot: u32) -> Range<usize>
    requires { IsInOrder (pairs_of entries.now) }
    ensures { GivesWay (pairs_of entries.now) slot result.start result.end }
{
    match place_of(entries, slot) {
        Ok(at) => at..at + 1,
        Err(at) => at..at,
    }
}

/// The entry again, with the same item.
fn shared<T: Drop>(entry: &Entry<T>) -> Result<Entry<T>, NoMemory>
    ensures { IfOk result (λ again. pair_of again ≡ pair_of entry.now) }
{
    Ok(Entry {
        slot: entry.slot,
        item: Arc::try_clone(&entry.item)?,
    })
}

/// Adds the entries at the end of a list, with the same items.
fn share<T: Drop>(list: &mut Vec<Entry<T>>, entries: &[Entry<T>]) -> Result<(), NoMemory>
    ensures { OnOk result (pairs_of list.new.items ≡ pairs_of list.old.items ++ pairs_of entries.now) }
{
    for entry in entries {
        list.push(shared(entry)?)?;
    }
    Ok(())
}

/// The entries with these changes made: each in the place of the entry with its slot, or else where it belongs.
pub(crate) fn changed_entries<T: Drop>(
    alloc: Global,
    entries: &[Entry<T>],
    changes: &[Entry<T>],
) -> Result<Vec<Entry<T>>, NoMemory>
    requires ordered { IsInOrder (pairs_of entries.now) }
    requires rising { IsInOrder (pairs_of changes.now) }
    ensures { IfOk result (λ changed. pairs_of changed.items ≡ with_all (pairs_of entries.now) (pairs_of changes.now)) }
{
    let mut changed = Vec::with_capacity(alloc, entries.len().saturating_add(changes.len()))?;
    let mut left = entries;
    for change in changes {
        let old = old_entry(left, change.slot);
        share(&mut changed, &left[..old.start])?;
        changed.push(shared(change)?)?;
        left = &left[old.end..];
    }
    share(&mut changed, left)?;
    Ok(changed)
}
