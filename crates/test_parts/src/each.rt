//! What is left of a list.

use crate::items::{Item, number, numbered};
use netlist_pages::{Each, behind, copies};
use netlist_parts::Parts;
use std::alloc::Global;
use std::test::Fail;

/// How many items are passed over, the first that is left, and how many are left, of 600 in two pages.
const LEFT: [(usize, Option<u32>, usize); 7] = [
    (0, Some(0), 600),
    (1, Some(1), 599),
    (511, Some(511), 89),
    (512, Some(512), 88),
    (599, Some(599), 1),
    (600, None, 0),
    (700, None, 0),
];

/// The first of the items that are left, and how many there are. They are left still.
fn left(items: &Each<'_, Item>) -> (Option<u32>, usize) {
    let mut count = 0usize;
    for _item in items.again() {
        count = count.saturating_add(1);
    }
    (number(items.first()), count)
}

#[test]
fn items_are_passed_over_in_order(rt: HostRuntime) -> Result<(), Fail> {
    let list = Parts::of(rt.alloc(), numbered(rt.alloc(), 600)?)?;
    let all = list.iter();
    for (passed, first, count) in &LEFT {
        assert_eq!(rt;
            left(&all.behind(*passed)),
            (*first, *count),
            "behind {passed}"
        );
        assert_eq!(rt;
            left(&list.iter_from(*passed)),
            (*first, *count),
            "from {passed}"
        );
    }
    assert_eq!(rt; left(&all), (Some(0), 600));
    Ok(())
}

/// How many items of a slice of three are passed over, and the first that is left.
const SLICES: [(usize, Option<u32>); 5] = [
    (0, Some(0)),
    (1, Some(1)),
    (2, Some(2)),
    (3, None),
    (4, None),
];

#[test]
fn a_slice_is_cut_and_copied(rt: HostRuntime) -> Result<(), Fail> {
    let plain = numbered(rt.alloc(), 3)?;
    let copy = copies(rt.alloc(), plain.as_slice())?;
    assert!(rt; copy == plain);
    for (passed, first) in &SLICES {
        let rest = behind(copy.as_slice(), *passed);
        assert_eq!(rt;
            left(&Each::of(rest)),
            (*first, 3 - (*passed).min(3)),
            "behind {passed}"
        );
    }
    Ok(())
}
