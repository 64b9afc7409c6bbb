//! The pages of a row and the ends beside them, and how both change.
ghost use Rattle.std.specs.Prelude.{◌≡◌, List, ◌++◌, ◌+◌, ◌^◌, ◌<◌, ◌≤◌, [], ◌∷◌, length, slice_get, slice_set, insert, remove, take, Some, IfOk, OnErr, OnOk};
ghost use Rattle.netlist_pages.specs.Pages.{before, listed, AreFilled, ArePages, IsFilled, IsHalved};

use crate::copied::Copied;
use crate::memory::NoMemory;
use crate::page::Page;
use crate::spots::{ROOM, gap_of, mend, spot_of};
use std::alloc::Global;

/// Half of the room on a page.
const HALF: usize = 256;

/// A page with fewer items is joined with the one beside it.
const FEW: usize = 128;

/// Puts another item at a place. Where memory is refused, the items stay.
pub(crate) fn put_in<T: Copied + Drop>(
    alloc: Global,
    pages: &mut Vec<Page<T>>,
    ends: &[usize],
    place: usize,
    item: T,
) -> Result<(), NoMemory>
    requires pages { ArePages pages.old.items ends.now }
    requires there { place < length (listed pages.old.items) }
    ensures pages { ArePages pages.new.items ends.now }
    ensures ok { OnOk result (listed pages.new.items ≡ slice_set (listed pages.old.items) place item) }
    ensures err { OnErr result (listed pages.new.items ≡ listed pages.old.items) }
{
    let Some(spot) = spot_of(pages.as_slice(), ends, place) else {
        unreachable!()
    };
    pages[spot.page].put(alloc, spot.at, item)
}

/// Puts one more page at a place, and a number behind the last end.
fn add_page<T: Drop>(
    pages: &mut Vec<Page<T>>,
    ends: &mut Vec<usize>,
    at: usize,
    page: Page<T>,
) -> Result<(), NoMemory>
    requires { at ≤ length pages.old.items }
    ensures ok { OnOk result ((pages.new.items ≡ insert pages.old.items at page) × (ends.new.items ≡ ends.old.items ++ 0 ∷ [])) }
    ensures err { OnErr result ((pages.new.items ≡ pages.old.items) × (ends.new.items ≡ ends.old.items)) }
{
    ends.reserve(1)?;
    if pages.insert(at, page).is_err() {
        return Err(NoMemory);
    }
    match ends.push(0) {
        Ok(()) => Ok(()),
        Err(_) => unreachable!(),
    }
}

/// Adds a page behind the last. Where memory is refused, the items stay.
pub(crate) fn append<T: Drop>(
    pages: &mut Vec<Page<T>>,
    ends: &mut Vec<usize>,
    page: Page<T>,
) -> Result<(), NoMemory>
    requires pages { ArePages pages.old.items ends.old.items }
    requires filled { IsFilled page }
    requires few { length (listed pages.old.items) + length page < 2 ^ 64 }
    ensures pages { ArePages pages.new.items ends.new.items }
    ensures ok { OnOk result (listed pages.new.items ≡ listed pages.old.items ++ page) }
    ensures err { OnErr result (listed pages.new.items ≡ listed pages.old.items) }
{
    let last = pages.len();
    add_page(pages, ends, last, page)?;
    mend(pages.as_slice(), ends, last);
    Ok(())
}

/// Adds an item on a page of its own behind the last.
fn push_page<T: Drop>(
    alloc: Global,
    pages: &mut Vec<Page<T>>,
    ends: &mut Vec<usize>,
    item: T,
) -> Result<(), NoMemory>
    requires pages { ArePages pages.old.items ends.old.items }
    requires few { length (listed pages.old.items) + 1 < 2 ^ 64 }
    ensures pages { ArePages pages.new.items ends.new.items }
    ensures ok { OnOk result (listed pages.new.items ≡ listed pages.old.items ++ item ∷ []) }
    ensures err { OnErr result (listed pages.new.items ≡ listed pages.old.items) }
{
    let page = Page::one(alloc, item)?;
    append(pages, ends, page)
}

/// Puts one more item on a page that has room.
fn insert_at<T: Copied + Drop>(
    alloc: Global,
    pages: &mut Vec<Page<T>>,
    ends: &mut Vec<usize>,
    page: usize,
    at: usize,
    item: T,
) -> Result<(), NoMemory>
    requires pages { ArePages pages.old.items ends.old.items }
    requires few { length (listed pages.old.items) + 1 < 2 ^ 64 }
    requires there { page < length pages.old.items }
    requires room { (p : List T) → slice_get pages.old.items page ≡ Some p → (at ≤ length p) × (length p < 512) }
    ensures pages { ArePages pages.new.items ends.new.items }
    ensures ok { OnOk result (listed pages.new.items ≡ insert (listed pages.old.items) (before pages.old.items page + at) item) }
    ensures err { OnErr result (listed pages.new.items ≡ listed pages.old.items) }
{
    pages[page].insert(alloc, at, item)?;
    mend(pages.as_slice(), ends, page);
    Ok(())
}

/// Makes two pages of a full one.
fn halve<T: Copied + Drop>(
    alloc: Global,
    pages: &mut Vec<Page<T>>,
    ends: &mut Vec<usize>,
    page: usize,
) -> Result<(), NoMemory>
    requires pages { ArePages pages.old.items ends.old.items }
    requires few { length (listed pages.old.items) < 2 ^ 64 }
    requires there { page < length pages.old.items }
    requires full { (p : List T) → slice_get pages.old.items page ≡ Some p → length p ≡ 512 }
    ensures pages { ArePages pages.new.items ends.new.items }
    ensures ok { OnOk result (IsHalved pages.old.items pages.new.items page) }
    ensures err { OnErr result (listed pages.new.items ≡ listed pages.old.items) }
{
    let (front, back) = pages[page].halves(alloc, HALF)?;
    add_page(pages, ends, page + 1, back)?;
    pages[page] = front;
    mend(pages.as_slice(), ends, page);
    Ok(())
}

/// Puts an item before a place. Where memory is refused, the items stay.
pub(crate) fn insert_in<T: Copied + Drop>(
    alloc: Global,
    pages: &mut Vec<Page<T>>,
    ends: &mut Vec<usize>,
    place: usize,
    item: T,
) -> Result<(), NoMemory>
    requires pages { ArePages pages.old.items ends.old.items }
    requires few { length (listed pages.old.items) + 1 < 2 ^ 64 }
    requires there { place ≤ length (listed pages.old.items) }
    ensures pages { ArePages pages.new.items ends.new.items }
    ensures ok { OnOk result (listed pages.new.items ≡ insert (listed pages.old.items) place item) }
    ensures err { OnErr result (listed pages.new.items ≡ listed pages.old.items) }
{
    let Some(gap) = gap_of(pages.as_slice(), ends.as_slice(), place) else {
        return push_page(alloc, pages, ends, item);
    };
    if pages[gap.page].len() < ROOM {
        return insert_at(alloc, pages, ends, gap.page, gap.at, item);
    }
    if gap.at == ROOM && gap.page + 1 == pages.len() {
        return push_page(alloc, pages, ends, item);
    }
    halve(alloc, pages, ends, gap.page)?;
    if gap.at <= HALF {
        insert_at(alloc, pages, ends, gap.page, gap.at, item)
    } else {
        insert_at(alloc, pages, ends, gap.page + 1, gap.at - HALF, item)
    }
}

/// Drops a page that is empty.
fn drop_empty<T: Drop>(pages: &mut Vec<Page<T>>, page: usize)
    requires there { page < length pages.old.items }
    requires filled { AreFilled (remove pages.old.items page) }
    requires few { (p : List T) → slice_get pages.old.items page ≡ Some p → length p ≤ 512 }
    ensures filled { AreFilled pages.new.items }
    ensures same { listed pages.new.items ≡ listed pages.old.items }
    ensures front { take page pages.new.items ≡ take page pages.old.items }
    ensures count { (page ≤ length pages.new.items) × (length pages.new.items ≤ length pages.old.items) }
{
    if pages[page].len() == 0 {
        pages.remove(page);
    }
}

/// Takes an item of a page out, and the page where it was the only one.
fn remove_at<T: Copied + Drop>(
    alloc: Global,
    pages: &mut Vec<Page<T>>,
    ends: &mut Vec<usize>,
    page: usize,
    at: usize,
) -> Result<T, NoMemory>
    requires pages { ArePages pages.old.items ends.old.items }
    requires few { length (listed pages.old.items) < 2 ^ 64 }
    requires there { page < length pages.old.items }
    requires within { (p : List T) → slice_get pages.old.items page ≡ Some p → at < length p }
    ensures pages { ArePages pages.new.items ends.new.items }
    ensures was { IfOk result (λ item. slice_get (listed pages.old.items) (before pages.old.items page + at) ≡ Some item) }
    ensures ok { OnOk result (listed pages.new.items ≡ remove (listed pages.old.items) (before pages.old.items page + at)) }
    ensures err { OnErr result (listed pages.new.items ≡ listed pages.old.items) }
{
    let item = pages[page].remove(alloc, at)?;
    drop_empty(pages, page);
    mend(pages.as_slice(), ends, page);
    Ok(item)
}

/// Makes one page of a page and the next, where there is one, both fit, and there is memory.
fn join<T: Copied + Drop>(
    alloc: Global,
    pages: &mut Vec<Page<T>>,
    ends: &mut Vec<usize>,
    page: usize,
)
    requires pages { ArePages pages.old.items ends.old.items }
    requires few { length (listed pages.old.items) < 2 ^ 64 }
    ensures pages { ArePages pages.new.items ends.new.items }
    ensures same { listed pages.new.items ≡ listed pages.old.items }
{
    if page >= pages.len() || pages.len() - page < 2 {
        return;
    }
    if pages[page].len().saturating_add(pages[page + 1].len()) > ROOM {
        return;
    }
    let Ok(both) = pages[page].joined(alloc, &pages[page + 1]) else {
        return;
    };
    pages[page] = both;
    pages.remove(page + 1);
    mend(pages.as_slice(), ends, page);
}

/// Joins a page that has become small with one beside it.
fn join_small<T: Copied + Drop>(
    alloc: Global,
    pages: &mut Vec<Page<T>>,
    ends: &mut Vec<usize>,
    page: usize,
)
    requires pages { ArePages pages.old.items ends.old.items }
    requires few { length (listed pages.old.items) < 2 ^ 64 }
    ensures pages { ArePages pages.new.items ends.new.items }
    ensures same { listed pages.new.items ≡ listed pages.old.items }
{
    if page >= pages.len() || pages[page].len() >= FEW {
        return;
    }
    join(alloc, pages, ends, page);
    if page > 0 {
        join(alloc, pages, ends, page - 1);
    }
}

/// Takes the item at a place out. Where memory is refused, the items stay.
pub(crate) fn remove_in<T: Copied + Drop>(
    alloc: Global,
    pages: &mut Vec<Page<T>>,
    ends: &mut Vec<usize>,
    place: usize,
) -> Result<T, NoMemory>
    requires pages { ArePages pages.old.items ends.old.items }
    requires few { length (listed pages.old.items) < 2 ^ 64 }
    requires there { place < length (listed pages.old.items) }
    ensures pages { ArePages pages.new.items ends.new.items }
    ensures was { IfOk result (λ item. slice_get (listed pages.old.items) place ≡ Some item) }
    ensures ok { OnOk result (listed pages.new.items ≡ remove (listed pages.old.items) place) }
    ensures err { OnErr result (listed pages.new.items ≡ listed pages.old.items) }
{
    let Some(spot) = spot_of(pages.as_slice(), ends.as_slice(), place) else {
        unreachable!()
    };
    let item = remove_at(alloc, pages, ends, spot.page, spot.at)?;
    join_small(alloc, pages, ends, spot.page);
    Ok(item)
}
