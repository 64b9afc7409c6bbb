//! Numbers, as items of lists.

use netlist_pages::{Copied, Each, NoMemory};
use std::alloc::Global;
use std::test::Fail;

/// A number, as an item.
#[derive(Clone, Copy, Debug, PartialEq, Eq)]
pub struct Item(pub u32);

impl Copied for Item {
    ghost typed = { λ _. Unit {0} };

    fn copy(&self, _alloc: Global) -> Result<Item, NoMemory> {
        Ok(*self)
    }
}

/// Whether these items are those of a plain list.
pub fn are(items: Each<'_, Item>, plain: &[Item]) -> bool {
    let mut items = items;
    for item in plain {
        match items.next() {
            Some(other) => {
                if *other != *item {
                    return false;
                }
            }
            None => return false,
        }
    }
    items.next().is_none()
}

/// The items 0, 1, 2 and so on, so many.
pub fn numbered(alloc: Global, count: u32) -> Result<Vec<Item>, Fail> {
    let mut items = Vec::with_capacity(alloc, count as usize)?;
    for number in 0..count {
        items.push(Item(number))?;
    }
    Ok(items)
}

/// The number of an item, where there is one.
pub fn number(item: Option<&Item>) -> Option<u32> {
    match item {
        Some(item) => Some(item.0),
        None => None,
    }
}
