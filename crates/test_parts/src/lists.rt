//! Lists in pages and plain lists, changed alike.

use crate::items::{Item, are, numbered};
use netlist_pages::Copied;
use netlist_parts::Parts;
use std::alloc::Global;
use std::test::Fail;

/// Whether a list has the items of a plain one, however they are read.
fn same(list: &Parts<Item>, plain: &[Item]) -> bool {
    if list.len() != plain.len() || !are(list.iter(), plain) {
        return false;
    }
    for (place, item) in plain.iter().enumerate() {
        if list.get(place) != Some(item) {
            return false;
        }
    }
    list.get(plain.len()).is_none()
        && are(list.iter_from(plain.len() / 2), &plain[plain.len() / 2..])
}

/// Puts an item before the one at a place, in both.
fn insert(
    alloc: Global,
    list: &mut Parts<Item>,
    plain: &mut Vec<Item>,
    place: usize,
    item: Item,
) -> Result<(), Fail> {
    if place <= list.len() && place <= plain.len() {
        list.insert(alloc, place, item)?;
        plain.insert(place, item)?;
    }
    Ok(())
}

/// Puts another item at a place, in both.
fn put(
    alloc: Global,
    list: &mut Parts<Item>,
    plain: &mut Vec<Item>,
    place: usize,
    item: Item,
) -> Result<(), Fail> {
    if place < list.len() && place < plain.len() {
        list.put(alloc, place, item)?;
        plain[place] = item;
    }
    Ok(())
}

/// Takes the item at a place out of both, and answers whether it is the same.
fn remove(
    alloc: Global,
    list: &mut Parts<Item>,
    plain: &mut Vec<Item>,
    place: usize,
) -> Result<bool, Fail> {
    if place < list.len() && place < plain.len() {
        let one = list.remove(alloc, place)?;
        let other = plain.remove(place);
        return Ok(one == other);
    }
    Ok(true)
}

/// Changes both so many times: most items come in, or most go out.
fn change(
    alloc: Global,
    list: &mut Parts<Item>,
    plain: &mut Vec<Item>,
    turns: u32,
    grows: bool,
) -> Result<bool, Fail> {
    let mut seed = 1u32;
    for turn in 0..turns {
        seed = seed.wrapping_mul(1_664_525).wrapping_add(1_013_904_223);
        let place = (seed / 65_536) as usize % plain.len().max(1);
        if turn % 5 == 0 {
            put(alloc, list, plain, place, Item(turn))?;
        } else if (turn % 5 < 4) == grows {
            insert(alloc, list, plain, place, Item(turn))?;
        } else if !remove(alloc, list, plain, place)? {
            return Ok(false);
        }
    }
    Ok(true)
}

#[test]
fn a_list_changes_as_a_plain_one(rt: HostRuntime) -> Result<(), Fail> {
    let alloc = rt.alloc();
    let mut list = Parts::new(alloc);
    let mut plain = Vec::new(alloc);
    assert!(rt; change(alloc, &mut list, &mut plain, 6000, true)?);
    assert!(rt; plain.len() > 2000 && same(&list, plain.as_slice()));
    assert!(rt; change(alloc, &mut list, &mut plain, 8000, false)?);
    assert!(rt; same(&list, plain.as_slice()));
    Ok(())
}

#[test]
fn a_copy_stays_where_the_list_changes(rt: HostRuntime) -> Result<(), Fail> {
    let alloc = rt.alloc();
    let mut plain = Vec::new(alloc);
    for number in 0..3000 {
        plain.push(Item(number))?;
    }
    let mut list = Parts::of(alloc, plain.as_slice().to_vec(alloc)?)?;
    let kept = list.copy(alloc)?;
    let old = plain.as_slice().to_vec(alloc)?;
    assert!(rt; change(alloc, &mut list, &mut plain, 2000, false)?);
    assert!(rt; same(&list, plain.as_slice()));
    assert!(rt; same(&kept, old.as_slice()));
    assert!(rt; kept != list);
    Ok(())
}

/// How many items a list has before one is added behind the last.
const COUNTS: [u32; 4] = [0, 3, 512, 600];

#[test]
fn an_item_is_added_behind_the_last(rt: HostRuntime) -> Result<(), Fail> {
    let alloc = rt.alloc();
    for count in &COUNTS {
        let mut plain = numbered(alloc, *count)?;
        let mut list = Parts::of(alloc, plain.as_slice().to_vec(alloc)?)?;
        list.push(alloc, Item(9000))?;
        plain.push(Item(9000))?;
        assert!(rt; same(&list, plain.as_slice()), "behind {count}");
    }
    Ok(())
}
