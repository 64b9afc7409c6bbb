//! `Rows`: how the items of a list are held.
ghost use Rattle.std.specs.Prelude.{◌≡◌, ◌<◌, ◌≤◌, drop, length, slice_get, slice_set, insert, remove, Some, IfOk, IfSome, OnErr, OnOk};
ghost use Rattle.std.specs.Arc.{arc_value};
ghost use Rattle.std.specs.Option.{option_copied};
ghost use Rattle.netlist_parts.specs.Rows.{items_of};

use netlist_pages::{Copied, Each, NoMemory, Paged, ROOM, behind, copies};
use std::alloc::Global;
use std::sync::Arc;

/// A list's items: a few in one piece, and more in pages.
#[derive(Debug, Drop)]
pub(crate) enum Rows<T> {
    Few(Vec<T>),
    Many(Arc<Paged<T>>),
}

/// How many items there are.
#[inline]
pub(crate) fn count<T>(rows: &Rows<T>) -> usize
    ensures { result ≡ length (items_of rows.now) }
{
    match rows {
        Rows::Few(items) => items.len(),
        Rows::Many(pages) => pages.len(),
    }
}

/// The item at a place.
#[inline]
pub(crate) fn item_at<T>(rows: &Rows<T>, place: usize) -> Option<&T>
    ensures { option_copied result ≡ slice_get (items_of rows.now) place }
{
    match rows {
        Rows::Few(items) => items.as_slice().get(place),
        Rows::Many(pages) => pages.get(place),
    }
}

/// Each item, in order.
#[inline]
pub(crate) fn all_items<T>(rows: &Rows<T>) -> Each<'_, T>
    ensures { result ≡ items_of rows.now }
{
    match rows {
        Rows::Few(items) => Each::of(items.as_slice()),
        Rows::Many(pages) => pages.iter(),
    }
}

/// Each item from a place on, in order.
pub(crate) fn items_from<T>(rows: &Rows<T>, place: usize) -> Each<'_, T>
    ensures { result ≡ drop place (items_of rows.now) }
{
    match rows {
        Rows::Few(items) => Each::of(behind(items.as_slice(), place)),
        Rows::Many(pages) => pages.iter_from(place),
    }
}

/// The rows of these items.
pub(crate) fn rows_of<T: Drop>(alloc: Global, items: Vec<T>) -> Result<Rows<T>, NoMemory>
    ensures { IfOk result (λ made. items_of made ≡ items.items) }
{
    if items.len() <= ROOM {
        return Ok(Rows::Few(items));
    }
    let pages = Paged::of(alloc, items)?;
    Ok(Rows::Many(Arc::new(alloc, pages)?))
}

/// The same items: a few are copied, and the pages of more are shared.
pub(crate) fn shared<T: Copied + Drop>(alloc: Global, rows: &Rows<T>) -> Result<Rows<T>, NoMemory>
    ensures { IfOk result (λ made. items_of made ≡ items_of rows.now) }
{
    match rows {
        Rows::Few(items) => Ok(Rows::Few(copies(alloc, items.as_slice())?)),
        Rows::Many(pages) => Ok(Rows::Many(Arc::try_clone(pages)?)),
    }
}

/// Puts another item at a place: in place where no other list has the pages, else in pages that share all but that one.
fn put_many<T: Copied + Drop>(
    alloc: Global,
    pages: &mut Arc<Paged<T>>,
    place: usize,
    item: T,
) -> Result<(), NoMemory>
    requires { place < length (arc_value pages.old) }
    ensures ok { OnOk result (arc_value pages.new ≡ slice_set (arc_value pages.old) place item) }
    ensures err { OnErr result (arc_value pages.new ≡ arc_value pages.old) }
{
    match Arc::get_mut(pages) {
        Some(own) => own.put(place, item),
        None => {
            let mut own = pages.share(alloc)?;
            own.put(place, item)?;
            *pages = Arc::new(alloc, own)?;
            Ok(())
        }
    }
}

/// Puts an item before a place: in place where no other list has the pages, else in pages that share all but that one.
fn insert_many<T: Copied + Drop>(
    alloc: Global,
    pages: &mut Arc<Paged<T>>,
    place: usize,
    item: T,
) -> Result<(), NoMemory>
    requires { place ≤ length (arc_value pages.old) }
    ensures ok { OnOk result (arc_value pages.new ≡ insert (arc_value pages.old) place item) }
    ensures err { OnErr result (arc_value pages.new ≡ arc_value pages.old) }
{
    match Arc::get_mut(pages) {
        Some(own) => own.insert(place, item),
        None => {
            let mut own = pages.share(alloc)?;
            own.insert(place, item)?;
            *pages = Arc::new(alloc, own)?;
            Ok(())
        }
    }
}

/// Takes an item out: in place where no other list has the pages, else of pages that share all but that one.
fn remove_many<T: Copied + Drop>(
    alloc: Global,
    pages: &mut Arc<Paged<T>>,
    place: usize,
) -> Result<T, NoMemory>
    requires { place < length (arc_value pages.old) }
    ensures was { IfOk result (λ item. slice_get (arc_value pages.old) place ≡ Some item) }
    ensures ok { OnOk result (arc_value pages.new ≡ remove (arc_value pages.old) place) }
    ensures err { OnErr result (arc_value pages.new ≡ arc_value pages.old) }
{
    match Arc::get_mut(pages) {
        Some(own) => own.remove(place),
        None => {
            let mut own = pages.share(alloc)?;
            let item = own.remove(place)?;
            *pages = Arc::new(alloc, own)?;
            Ok(item)
        }
    }
}

/// Puts another item at a place of these rows.
pub(crate) fn put_at<T: Copied + Drop>(
    alloc: Global,
    rows: &mut Rows<T>,
    place: usize,
    item: T,
) -> Result<(), NoMemory>
    requires { place < length (items_of rows.old) }
    ensures ok { OnOk result (items_of rows.new ≡ slice_set (items_of rows.old) place item) }
    ensures err { OnErr result (items_of rows.new ≡ items_of rows.old) }
{
    match rows {
        Rows::Few(items) => {
            items[place] = item;
            Ok(())
        }
        Rows::Many(pages) => put_many(alloc, pages, place, item),
    }
}

/// Puts one more item before a place, in one piece. Where memory is refused, the items stay.
fn insert_few<T: Drop>(items: &mut Vec<T>, place: usize, item: T) -> Result<(), NoMemory>
    requires { place ≤ length items.old.items }
    ensures ok { OnOk result (items.new.items ≡ insert items.old.items place item) }
    ensures err { OnErr result (items.new.items ≡ items.old.items) }
{
    match items.insert(place, item) {
        Ok(()) => Ok(()),
        Err(_) => Err(NoMemory),
    }
}

/// Equal items in pages, with one more before a place.
fn paged_with<T: Copied + Drop>(
    alloc: Global,
    items: &[T],
    place: usize,
    item: T,
) -> Result<Arc<Paged<T>>, NoMemory>
    requires { place ≤ length items.now }
    ensures { IfOk result (λ made. arc_value made ≡ insert items.now place item) }
{
    let mut pages = Paged::of(alloc, copies(alloc, items)?)?;
    pages.insert(place, item)?;
    Ok(Arc::new(alloc, pages)?)
}

/// The items, where they stand in one piece that has no room for more.
fn full_piece<T>(rows: &Rows<T>) -> Option<&[T]>
    ensures { IfSome result (λ items. items.now ≡ items_of rows.now) }
{
    match rows {
        Rows::Few(items) => {
            if items.len() < ROOM {
                return None;
            }
            Some(items.as_slice())
        }
        Rows::Many(_) => None,
    }
}

/// Puts an item before a place of these rows, or behind the last.
pub(crate) fn insert_at<T: Copied + Drop>(
    alloc: Global,
    rows: &mut Rows<T>,
    place: usize,
    item: T,
) -> Result<(), NoMemory>
    requires { place ≤ length (items_of rows.old) }
    ensures ok { OnOk result (items_of rows.new ≡ insert (items_of rows.old) place item) }
    ensures err { OnErr result (items_of rows.new ≡ items_of rows.old) }
{
    if let Some(items) = full_piece(rows) {
        let pages = paged_with(alloc, items, place, item)?;
        *rows = Rows::Many(pages);
        return Ok(());
    }
    match rows {
        Rows::Few(items) => insert_few(items, place, item),
        Rows::Many(pages) => insert_many(alloc, pages, place, item),
    }
}

/// Takes the item at a place of these rows out.
pub(crate) fn remove_at<T: Copied + Drop>(
    alloc: Global,
    rows: &mut Rows<T>,
    place: usize,
) -> Result<T, NoMemory>
    requires { place < length (items_of rows.old) }
    ensures was { IfOk result (λ item. slice_get (items_of rows.old) place ≡ Some item) }
    ensures ok { OnOk result (items_of rows.new ≡ remove (items_of rows.old) place) }
    ensures err { OnErr result (items_of rows.new ≡ items_of rows.old) }
{
    match rows {
        Rows::Few(items) => Ok(items.remove(place)),
        Rows::Many(pages) => remove_many(alloc, pages, place),
    }
}
