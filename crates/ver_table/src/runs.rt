//! Runs of changes that lie on one page, and the pages that they make.
ghost use Rattle.std.specs.Prelude.{◌≡◌, ◌/◌, ◌≤◌, IfNone, IfOk, IfSome, []};
ghost use Rattle.ver_table.specs.Entries.{pairs_of, with_all, IsInOrder};
ghost use Rattle.ver_table.specs.Pages.{sheet_of, IsFirstRun, IsRun};

use crate::entries::{Entry, changed_entries};
use netlist_pages::NoMemory;
use std::alloc::Global;
use std::sync::Arc;

/// The number of a page with its entries: those whose slots have this number as their quotient by the page size. Those who have the
/// page share them.
pub(crate) type Page<T> = Entry<Vec<Entry<T>>>;

/// The changes at the front of a list that lie on one page, the page's number, and the other changes.
#[derive(Drop)]
pub(crate) struct Run<'a, T> {
    pub(crate) number: u32,
    pub(crate) changes: &'a [Entry<T>],
    pub(crate) rest: &'a [Entry<T>],
}

/// The number of the page on which a slot lies.
pub(crate) fn page_of(slot: u32, size: u32) -> u32
    requires { 1 ≤ size }
    ensures { result ≡ slot / size }
{
    slot / size
}

/// The number of changes at the front of the list that lie on the page with the number.
fn run_length<T>(changes: &[Entry<T>], size: u32, number: u32) -> usize
    requires { 1 ≤ size }
    ensures { IsRun size number (pairs_of changes.now) result }
{
    for (at, change) in changes.iter().enumerate() {
        if change.slot / size != number {
            return at;
        }
    }
    changes.len()
}

/// The first run of the changes, where there is a change.
pub(crate) fn first_run<T>(changes: &[Entry<T>], size: u32) -> Option<Run<'_, T>>
    requires some { 1 ≤ size }
    requires rising { IsInOrder (pairs_of changes.now) }
    ensures none { IfNone result (pairs_of changes.now ≡ []) }
    ensures some { IfSome result (λ run. IsFirstRun size (pairs_of changes.now) run.number (pairs_of run.changes.now) (pairs_of run.rest.now)) }
{
    let first = changes.first()?;
    let number = page_of(first.slot, size);
    let (changes, rest) = changes.split_at(run_length(changes, size, number));
    Some(Run {
        number,
        changes,
        rest,
    })
}

/// The page with the number, of these entries with these changes made.
pub(crate) fn changed_page<T: Drop>(
    alloc: Global,
    number: u32,
    entries: &[Entry<T>],
    changes: &[Entry<T>],
) -> Result<Page<T>, NoMemory>
    requires ordered { IsInOrder (pairs_of entries.now) }
    requires rising { IsInOrder (pairs_of changes.now) }
    ensures { IfOk result (λ page. sheet_of page ≡ (number, with_all (pairs_of entries.now) (pairs_of changes.now))) }
{
    let entries = changed_entries(alloc, entries, changes)?;
    Ok(Entry {
        slot: number,
        item: Arc::new(alloc, entries)?,
    })
}
