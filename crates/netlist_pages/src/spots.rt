//! Where the items of a row stand.
ghost use Rattle.std.specs.Prelude.{◌≡◌, ◌+◌, ◌<◌, ◌≤◌, [], length, take, IfSome, IfNone};
ghost use Rattle.netlist_pages.specs.Pages.{AreReady, before, ends_from, listed, IsGap, IsPageOf, IsSpot};

use crate::page::Page;

/// The most items on a page.
pub const ROOM: usize = 512;

/// Where an item stands: on which page, and behind how many others there.
#[derive(Clone, Copy)]
pub(crate) struct Spot {
    pub(crate) page: usize,
    pub(crate) at: usize,
}

/// How many items stand before a page.
#[inline]
pub(crate) fn start_of<T>(_pages: &[Page<T>], ends: &[usize], page: usize) -> usize
    requires there { page ≤ length _pages.now }
    requires sums { take page ends.now ≡ take page (ends_from 0 _pages.now) }
    ensures { result ≡ before _pages.now page }
{
    if page == 0 {
        return 0;
    }
    ends[page - 1]
}

/// A page that the one with the item at a place is or stands behind.
#[inline]
fn guess<T>(pages: &[Page<T>], ends: &[usize], place: usize) -> usize
    requires sums { ends.now ≡ ends_from 0 pages.now }
    ensures there { result ≤ length pages.now }
    ensures behind { before pages.now result ≤ place }
{
    let page = (place / ROOM).min(pages.len());
    if start_of(pages, ends, page) <= place {
        page
    } else {
        0
    }
}

/// The page with the item at a place, or the number of pages where there is no such item. Where the pages are full, the guess is right.
#[inline]
fn page_of<T>(pages: &[Page<T>], ends: &[usize], place: usize) -> usize
    requires sums { ends.now ≡ ends_from 0 pages.now }
    ensures { IsPageOf pages.now place result }
{
    let mut low = guess(pages, ends, place);
    let mut high = ends.len();
    if low < high && place < ends[low] {
        return low;
    }
    while low < high {
        let middle = low + (high - low) / 2;
        if ends[middle] <= place {
            low = middle + 1;
        } else {
            high = middle;
        }
    }
    low
}

/// Where the item at a place stands.
#[inline]
pub(crate) fn spot_of<T>(pages: &[Page<T>], ends: &[usize], place: usize) -> Option<Spot>
    requires sums { ends.now ≡ ends_from 0 pages.now }
    ensures there { IfSome result (λ s. IsSpot pages.now place s.page s.at) }
    ensures past { IfNone result (length (listed pages.now) ≤ place) }
{
    let page = page_of(pages, ends, place);
    if page == pages.len() {
        return None;
    }
    let at = place - start_of(pages, ends, page);
    Some(Spot { page, at })
}

/// The gap before a place, as a place behind some items of a page, where there is a page.
pub(crate) fn gap_of<T>(pages: &[Page<T>], ends: &[usize], place: usize) -> Option<Spot>
    requires sums { ends.now ≡ ends_from 0 pages.now }
    requires there { place ≤ length (listed pages.now) }
    ensures there { IfSome result (λ s. IsGap pages.now place s.page s.at) }
    ensures none { IfNone result (pages.now ≡ []) }
{
    if pages.is_empty() {
        return None;
    }
    if place == 0 {
        return Some(Spot { page: 0, at: 0 });
    }
    match spot_of(pages, ends, place - 1) {
        Some(spot) => Some(Spot {
            page: spot.page,
            at: spot.at + 1,
        }),
        None => unreachable!(),
    }
}

/// Counts the ends anew from a page on, and drops those that are too many.
pub(crate) fn mend<T>(pages: &[Page<T>], ends: &mut Vec<usize>, from: usize)
    requires { AreReady pages.now ends.old.items from }
    ensures { ends.new.items ≡ ends_from 0 pages.now }
{
    ends.truncate(pages.len());
    let mut end = start_of(pages, ends.as_slice(), from);
    for page in from..pages.len() {
        end += pages[page].len();
        ends[page] = end;
    }
}
