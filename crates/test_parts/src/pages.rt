//! Lists in pages by themselves.

use crate::items::{Item, are, number, numbered};
use netlist_pages::{Paged, ROOM};
use std::alloc::Global;
use std::test::Fail;

/// A change of 600 items in two pages.
#[derive(Clone, Copy, Debug)]
enum Change {
    Put(usize),
    Insert(usize),
    Remove(usize),
}

/// What a list of the items 0 to 599 has after a change that brings the item 9000: how many, and what stands at 0, 511, 512 and 599.
const CHANGES: [(Change, usize, [Option<u32>; 4]); 8] = [
    (
        Change::Put(0),
        600,
        [Some(9000), Some(511), Some(512), Some(599)],
    ),
    (
        Change::Put(511),
        600,
        [Some(0), Some(9000), Some(512), Some(599)],
    ),
    (
        Change::Put(599),
        600,
        [Some(0), Some(511), Some(512), Some(9000)],
    ),
    (
        Change::Insert(0),
        601,
        [Some(9000), Some(510), Some(511), Some(598)],
    ),
    (
        Change::Insert(512),
        601,
        [Some(0), Some(511), Some(9000), Some(598)],
    ),
    (
        Change::Insert(600),
        601,
        [Some(0), Some(511), Some(512), Some(599)],
    ),
    (
        Change::Remove(0),
        599,
        [Some(1), Some(512), Some(513), None],
    ),
    (
        Change::Remove(512),
        599,
        [Some(0), Some(511), Some(513), None],
    ),
];

/// Makes a change, where its place is there.
fn make(list: &mut Paged<Item>, change: Change) -> Result<(), Fail> {
    match change {
        Change::Put(place) => {
            if place < list.len() {
                list.put(place, Item(9000))?;
            }
        }
        Change::Insert(place) => {
            if place <= list.len() {
                list.insert(place, Item(9000))?;
            }
        }
        Change::Remove(place) => {
            if place < list.len() {
                list.remove(place)?;
            }
        }
    }
    Ok(())
}

/// What stands at 0, 511, 512 and 599.
fn items_at(list: &Paged<Item>) -> [Option<u32>; 4] {
    [
        number(list.get(0)),
        number(list.get(511)),
        number(list.get(512)),
        number(list.get(599)),
    ]
}

#[test]
fn a_list_in_pages_changes_and_one_that_shares_them_stays(rt: HostRuntime) -> Result<(), Fail> {
    let alloc = rt.alloc();
    let old = Paged::of(alloc, numbered(alloc, 600)?)?;
    for (made, count, wanted) in &CHANGES {
        let mut list = old.share(alloc)?;
        make(&mut list, *made)?;
        assert_eq!(rt;
            (list.len(), items_at(&list)),
            (*count, *wanted),
            "after {made:?}"
        );
        assert!(rt;
            are(old.iter(), numbered(alloc, 600)?.as_slice()),
            "kept after {made:?}"
        );
    }
    Ok(())
}

#[test]
fn a_list_in_pages_begins_empty(rt: HostRuntime) -> Result<(), Fail> {
    let mut list = Paged::new(rt.alloc());
    assert!(rt; list.len() == 0 && list.get(0).is_none() && list.iter().next().is_none());
    for number in 0..=ROOM {
        list.insert(0, Item(number as u32))?;
    }
    assert_eq!(rt; list.len(), 513);
    assert_eq!(rt; items_at(&list), [Some(512), Some(1), Some(0), None]);
    assert_eq!(rt; number(list.iter_from(500).first()), Some(12));
    Ok(())
}
