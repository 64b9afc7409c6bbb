//! `Page`: some items, which lists share.
ghost use Rattle.std.specs.Prelude.{◌≡◌, ◌++◌, ◌<◌, ◌≤◌, [], ◌∷◌, length, slice_get, slice_set, insert, remove, take, drop, Some, IfOk, OnErr, OnOk};
ghost use Rattle.std.specs.Arc.{arc_value};
ghost use Rattle.std.specs.Option.{option_copied};

use crate::copied::Copied;
use crate::memory::NoMemory;
use std::alloc::Global;
use std::marker::Model;
use std::sync::Arc;

/// Some items, which contracts see as a list, and how many they are.
#[derive(Debug, Drop)]
pub(crate) struct Page<T> {
    size: usize,
    items: Arc<Vec<T>>,
}

impl<T> Model for Page<T> {
    ghost use Rattle.std.specs.Prelude.{◌≡◌, List, length};
    ghost use Rattle.std.specs.Arc.{arc_value};

    ghost Value = { List T };

    ghost view = { λ p. (arc_value p.items).items };

    ghost invariant = { λ p. p.size ≡ length (arc_value p.items).items };
}

/// The items of a slice from a place on.
pub fn behind<T>(items: &[T], place: usize) -> &[T]
    ensures { result.now ≡ drop place items.now }
{
    if place < items.len() {
        &items[place..]
    } else {
        &[]
    }
}

/// Adds equal items behind the last, in memory of their own.
fn add_copies<T: Copied + Drop>(
    alloc: Global,
    made: &mut Vec<T>,
    items: &[T],
) -> Result<(), NoMemory>
    ensures { OnOk result (made.new.items ≡ made.old.items ++ items.now) }
{
    for item in items {
        made.push(item.copy(alloc)?)?;
    }
    Ok(())
}

/// Equal items, in memory of their own.
pub fn copies<T: Copied + Drop>(alloc: Global, items: &[T]) -> Result<Vec<T>, NoMemory>
    ensures { IfOk result (λ made. made.items ≡ items.now) }
{
    let mut made = Vec::with_capacity(alloc, items.len())?;
    add_copies(alloc, &mut made, items)?;
    Ok(made)
}

/// Puts an item at a place: in place where no other list has the page, else on a copy of it.
fn put_on<T: Copied + Drop>(
    alloc: Global,
    page: &mut Arc<Vec<T>>,
    at: usize,
    item: T,
) -> Result<(), NoMemory>
    requires { at < length (arc_value page.old).items }
    ensures ok { OnOk result ((arc_value page.new).items ≡ slice_set (arc_value page.old).items at item) }
    ensures err { OnErr result ((arc_value page.new).items ≡ (arc_value page.old).items) }
{
    match Arc::get_mut(page) {
        Some(own) => {
            own[at] = item;
            Ok(())
        }
        None => {
            let mut own = copies(alloc, page.as_slice())?;
            own[at] = item;
            *page = Arc::new(alloc, own)?;
            Ok(())
        }
    }
}

/// Puts an item between others: in place where no other list has the page, else on a copy of it.
fn insert_on<T: Copied + Drop>(
    alloc: Global,
    page: &mut Arc<Vec<T>>,
    at: usize,
    item: T,
) -> Result<(), NoMemory>
    requires { at ≤ length (arc_value page.old).items }
    ensures ok { OnOk result ((arc_value page.new).items ≡ insert (arc_value page.old).items at item) }
    ensures err { OnErr result ((arc_value page.new).items ≡ (arc_value page.old).items) }
{
    match Arc::get_mut(page) {
        Some(own) => match own.insert(at, item) {
            Ok(()) => Ok(()),
            Err(_) => Err(NoMemory),
        },
        None => {
            let mut own = copies(alloc, page.as_slice())?;
            own.insert(at, item)?;
            *page = Arc::new(alloc, own)?;
            Ok(())
        }
    }
}

/// Takes an item out: in place where no other list has the page, else of a copy of it.
fn remove_on<T: Copied + Drop>(
    alloc: Global,
    page: &mut Arc<Vec<T>>,
    at: usize,
) -> Result<T, NoMemory>
    requires { at < length (arc_value page.old).items }
    ensures was { IfOk result (λ item. slice_get (arc_value page.old).items at ≡ Some item) }
    ensures ok { OnOk result ((arc_value page.new).items ≡ remove (arc_value page.old).items at) }
    ensures err { OnErr result ((arc_value page.new).items ≡ (arc_value page.old).items) }
{
    match Arc::get_mut(page) {
        Some(own) => Ok(own.remove(at)),
        None => {
            let mut own = copies(alloc, page.as_slice())?;
            let item = own.remove(at);
            *page = Arc::new(alloc, own)?;
            Ok(item)
        }
    }
}

impl<T> Page<T> {
    /// A page of these items.
    pub(crate) fn of(alloc: Global, items: Vec<T>) -> Result<Page<T>, NoMemory>
    where
        T: Drop,
        ensures { IfOk result (λ made. made ≡ items.items) }
    {
        Ok(Page {
            size: items.len(),
            items: Arc::new(alloc, items)?,
        })
    }

    /// A page of one item.
    pub(crate) fn one(alloc: Global, item: T) -> Result<Page<T>, NoMemory>
    where
        T: Drop,
        ensures { IfOk result (λ made. made ≡ item ∷ []) }
    {
        let mut items = Vec::new(alloc);
        items.push(item)?;
        Page::of(alloc, items)
    }

    /// How many items it has.
    pub(crate) fn len(&self) -> usize
        ensures { result ≡ length self.now }
    {
        self.size
    }

    /// Lends the items.
    #[inline]
    pub(crate) fn as_slice(&self) -> &[T]
        ensures { result.now ≡ self.now }
    {
        self.items.as_slice()
    }

    /// The item at a place.
    #[inline]
    pub(crate) fn get(&self, at: usize) -> Option<&T>
        ensures { option_copied result ≡ slice_get self.now at }
    {
        self.items.as_slice().get(at)
    }

    /// The same page, held by one more list.
    pub(crate) fn share(&self) -> Result<Page<T>, NoMemory>
        ensures { IfOk result (λ made. made ≡ self.now) }
    {
        Ok(Page {
            size: self.size,
            items: Arc::try_clone(&self.items)?,
        })
    }
}

impl<T: Copied + Drop> Page<T> {
    /// Puts another item at a place. Where memory is refused, the page stays.
    pub(crate) fn put(&mut self, alloc: Global, at: usize, item: T) -> Result<(), NoMemory>
        requires { at < length self.old }
        ensures ok { OnOk result (self.new ≡ slice_set self.old at item) }
        ensures err { OnErr result (self.new ≡ self.old) }
    {
        put_on(alloc, &mut self.items, at, item)
    }

    /// Puts one more item at a place. Where memory is refused, the page stays.
    pub(crate) fn insert(&mut self, alloc: Global, at: usize, item: T) -> Result<(), NoMemory>
        requires there { at ≤ length self.old }
        requires room { length self.old < 512 }
        ensures ok { OnOk result (self.new ≡ insert self.old at item) }
        ensures err { OnErr result (self.new ≡ self.old) }
    {
        insert_on(alloc, &mut self.items, at, item)?;
        self.size += 1;
        Ok(())
    }

    /// Takes the item at a place out. Where memory is refused, the page stays.
    pub(crate) fn remove(&mut self, alloc: Global, at: usize) -> Result<T, NoMemory>
        requires { at < length self.old }
        ensures was { IfOk result (λ item. slice_get self.old at ≡ Some item) }
        ensures ok { OnOk result (self.new ≡ remove self.old at) }
        ensures err { OnErr result (self.new ≡ self.old) }
    {
        let item = remove_on(alloc, &mut self.items, at)?;
        self.size -= 1;
        Ok(item)
    }

    /// Its items before a place, and those from there on.
    pub(crate) fn halves(&self, alloc: Global, at: usize) -> Result<(Page<T>, Page<T>), NoMemory>
        requires { at ≤ length self.now }
        ensures front { IfOk result (λ two. two.0 ≡ take at self.now) }
        ensures back { IfOk result (λ two. two.1 ≡ drop at self.now) }
    {
        let (front, back) = self.items.as_slice().split_at(at);
        let front = copies(alloc, front)?;
        let back = copies(alloc, back)?;
        Ok((Page::of(alloc, front)?, Page::of(alloc, back)?))
    }

    /// Its items, and behind them those of another page.
    pub(crate) fn joined(&self, alloc: Global, other: &Page<T>) -> Result<Page<T>, NoMemory>
        ensures { IfOk result (λ made. made ≡ self.now ++ other.now) }
    {
        let mut both = Vec::with_capacity(alloc, self.size.saturating_add(other.size))?;
        add_copies(alloc, &mut both, self.items.as_slice())?;
        add_copies(alloc, &mut both, other.items.as_slice())?;
        Page::of(alloc, both)
    }
}
