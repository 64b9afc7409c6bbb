//! Lists in one piece, and values and lists that several hold.

use crate::items::{Item, numbered};
use netlist_pages::Copied;
use netlist_parts::{Row, Shared, SharedRow};
use std::alloc::Global;
use std::test::Fail;

/// A change of the items 0, 1 and 2.
#[derive(Clone, Copy, Debug)]
enum Change {
    Push,
    Put(usize),
    Set(usize),
    Replace(usize),
    Remove(usize),
    Cut(usize),
}

/// What is left of the items 0, 1 and 2 after a change that brings the item 9, and the item that it gives back.
const CHANGES: [(Change, &[Item], Option<Item>); 7] = [
    (Change::Push, &[Item(0), Item(1), Item(2), Item(9)], None),
    (Change::Put(1), &[Item(0), Item(9), Item(2)], None),
    (Change::Put(3), &[Item(0), Item(1), Item(2), Item(9)], None),
    (Change::Set(2), &[Item(0), Item(1), Item(9)], None),
    (
        Change::Replace(0),
        &[Item(9), Item(1), Item(2)],
        Some(Item(0)),
    ),
    (Change::Remove(1), &[Item(0), Item(2)], Some(Item(1))),
    (Change::Cut(2), &[Item(0), Item(1)], None),
];

/// Makes a change, where its place is there, and answers the item that it gives back.
fn make(row: &mut Row<Item>, change: Change) -> Result<Option<Item>, Fail> {
    let count = row.as_slice().len();
    match change {
        Change::Push => row.push(Item(9))?,
        Change::Put(place) if place <= count => row.put(place, Item(9))?,
        Change::Set(place) if place < count => row.set(place, Item(9)),
        Change::Replace(place) if place < count => return Ok(Some(row.replace(place, Item(9)))),
        Change::Remove(place) if place < count => return Ok(Some(row.remove(place))),
        Change::Cut(most) => row.cut(most),
        _ => {}
    }
    Ok(None)
}

#[test]
fn a_row_changes_and_its_copy_stays(rt: HostRuntime) -> Result<(), Fail> {
    let old = Row::of(numbered(rt.alloc(), 3)?);
    for (made, items, given) in &CHANGES {
        let mut row = old.copy(rt.alloc())?;
        assert!(rt; row == old);
        assert_eq!(rt; make(&mut row, *made)?, *given, "by {made:?}");
        assert_eq!(rt; row.into_vec().as_slice(), *items, "after {made:?}");
    }
    Ok(())
}

/// Whether a value is lent as that number, by the one that holds it and by another that shares it.
fn is_held(alloc: Global, held: &Shared<Item>, number: u32) -> Result<bool, Fail> {
    let (other, copy) = (held.share()?, held.copy(alloc)?);
    Ok(held.get().0 == number && other.0 == number && copy == other)
}

#[test]
fn a_value_is_shared(rt: HostRuntime) -> Result<(), Fail> {
    let one = Shared::of(rt.alloc(), Item(7))?;
    let some = Shared::of_some(rt.alloc(), Some(Item(8)))?;
    let none = Shared::of_some(rt.alloc(), None::<Item>)?;
    assert!(rt; is_held(rt.alloc(), &one, 7)? && none.is_none());
    let copy = some.copy(rt.alloc())?;
    assert!(rt; copy == some && copy != Some(one));
    Ok(())
}

#[test]
fn a_list_is_shared(rt: HostRuntime) -> Result<(), Fail> {
    let empty = SharedRow::of(rt.alloc(), Row::of(Vec::new(rt.alloc())))?;
    assert!(rt; empty == SharedRow::empty() && empty.share()?.as_slice().is_empty());
    let list = SharedRow::of(rt.alloc(), Row::of(numbered(rt.alloc(), 2)?))?;
    let (other, copy) = (list.share()?, list.copy(rt.alloc())?);
    assert_eq!(rt; other.as_slice(), [Item(0), Item(1)].as_slice());
    assert!(rt; copy == list && list != empty);
    Ok(())
}
