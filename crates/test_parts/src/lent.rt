//! Lists that are lent, and what is left of one.

use crate::items::{Item, number, numbered};
use netlist_parts::{Parts, PartsRef};
use std::alloc::Global;
use std::test::Fail;

/// Places of items: the first, the last of a page and the first of the next, the last of all, and one that no list here has.
const PLACES: [usize; 5] = [0, 511, 512, 599, 600];

/// How many items a list has, and what stands at those places.
const LISTS: [(u32, [Option<u32>; 5]); 4] = [
    (0, [None, None, None, None, None]),
    (3, [Some(0), None, None, None, None]),
    (512, [Some(0), Some(511), None, None, None]),
    (600, [Some(0), Some(511), Some(512), Some(599), None]),
];

/// What a list answers at each of those places, asked for an item that may be there.
fn got(alloc: Global, list: &PartsRef<'_, Item>) -> Result<Vec<Option<u32>>, Fail> {
    let mut found = Vec::new(alloc);
    for place in &PLACES {
        found.push(number(list.get(*place)))?;
    }
    Ok(found)
}

/// The same, where it is asked for an item only that is there.
fn there(alloc: Global, list: &PartsRef<'_, Item>) -> Result<Vec<Option<u32>>, Fail> {
    let mut found = Vec::new(alloc);
    for place in &PLACES {
        if *place < list.len() {
            found.push(Some(list.at(*place).0))?;
        } else {
            found.push(None)?;
        }
    }
    Ok(found)
}

/// The same of the list itself.
fn there_itself(alloc: Global, list: &Parts<Item>) -> Result<Vec<Option<u32>>, Fail> {
    let mut found = Vec::new(alloc);
    for place in &PLACES {
        if *place < list.len() {
            found.push(Some(list.at(*place).0))?;
        } else {
            found.push(None)?;
        }
    }
    Ok(found)
}

/// The first of the items from each of those places on.
fn first_from(alloc: Global, list: &PartsRef<'_, Item>) -> Result<Vec<Option<u32>>, Fail> {
    let mut found = Vec::new(alloc);
    for place in &PLACES {
        found.push(number(list.iter_from(*place).first()))?;
    }
    Ok(found)
}

#[test]
fn a_lent_list_answers_as_the_list(rt: HostRuntime) -> Result<(), Fail> {
    let alloc = rt.alloc();
    for (count, wanted) in &LISTS {
        let list = Parts::of(alloc, numbered(alloc, *count)?)?;
        let lent = list.lent();
        assert_eq!(rt;
            got(alloc, &lent)?.as_slice(),
            wanted.as_slice(),
            "of {count}"
        );
        assert_eq!(rt;
            there(alloc, &lent)?.as_slice(),
            wanted.as_slice(),
            "of {count}"
        );
        assert_eq!(rt;
            first_from(alloc, &lent)?.as_slice(),
            wanted.as_slice(),
            "of {count}"
        );
    }
    Ok(())
}

#[test]
fn a_list_has_what_it_was_made_of(rt: HostRuntime) -> Result<(), Fail> {
    let alloc = rt.alloc();
    for (count, wanted) in &LISTS {
        let list = Parts::of(alloc, numbered(alloc, *count)?)?;
        assert_eq!(rt;
            there_itself(alloc, &list)?.as_slice(),
            wanted.as_slice(),
            "of {count}"
        );
        assert_eq!(rt; list.is_empty(), *count == 0, "of {count}");
        assert_eq!(rt; list.lent().iter().count(), *count as usize, "of {count}");
    }
    Ok(())
}

#[test]
fn the_list_without_items_has_none(rt: HostRuntime) -> Result<(), Fail> {
    let alloc = rt.alloc();
    let none = PartsRef::none();
    assert_eq!(rt; none.len(), 0);
    assert_eq!(rt; got(alloc, &none)?.as_slice(), LISTS[0].1.as_slice());
    assert!(rt; none.iter().first().is_none() && none.iter_from(0).first().is_none());
    Ok(())
}
