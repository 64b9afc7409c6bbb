//! Walks, item by item.
use flat_lookup::cell_along;
use flat_report::{item_text, lent_text};
use flat_spec::{Item, Path};
use netlist_schema::{Design, Shown};
use occ_walk::{Walk, WalkError};
use std::alloc::Global;
use std::process::Abort;
use std::test::Fail;
use test_hand_designs::{bare, board};

/// The items of the board.
const ITEMS: &str = "inst / w T
net / X / X
net / Y / X
inst /u w F
net /u x / X
inst /v w V
net /v y / X
inst /v/l w P
pin /v/l a 0 / X
";

/// Those at and below its first instance, its second one, and the instance in that.
const THROUGH: &str = "inst /u w F
net /u x / X
";

const SOCKET: &str = "inst /v w V
net /v y / X
inst /v/l w P
pin /v/l a 0 / X
";

const LAMP: &str = "inst /v/l w P
pin /v/l a 0 / X
";

/// Paths of the board, and the items at and below each.
const BELOW: [(&[u32], &str); 4] = [
    (&[], ITEMS),
    (&[0], THROUGH),
    (&[1], SOCKET),
    (&[1, 0], LAMP),
];

/// Adds the line of an item.
fn add_line(rt: &impl Abort, alloc: Global, design: &Design, item: Item, lines: &mut Vec<u8>) {
    item_text(alloc, design, &item, lines).expect(rt, "memory for a line");
}

/// The lines of the items that a walk goes on to give.
fn lines_left(
    rt: &impl Abort,
    alloc: Global,
    design: &Design,
    walk: &mut Walk<&Design>,
) -> Vec<u8> {
    let mut lines = Vec::new(alloc);
    for _ in 0..100u32 {
        match walk.next().expect(rt, "memory for an item") {
            Some(item) => add_line(rt, alloc, design, item, &mut lines),
            None => break,
        }
    }
    lines
}

/// A walk is at its end.
fn is_over(rt: &impl Abort, walk: &mut Walk<&Design>) -> bool {
    walk.next().expect(rt, "memory for an item").is_none()
}

/// A walk gives these lines, and then stays at its end.
fn gives(rt: &impl Abort, alloc: Global, design: &Design, mut walk: Walk<&Design>, wanted: &str) {
    let lines = lines_left(rt, alloc, design, &mut walk);
    assert!(rt;
        lines.as_slice() == wanted.as_bytes(),
        "other items than\n{wanted}"
    );
    assert!(rt; is_over(rt, &mut walk), "more items than\n{wanted}");
}

/// A walk that begins at a path gives these lines, and then stays at its end.
fn gives_at(rt: &impl Abort, alloc: Global, design: &Design, path: &[u32], wanted: &str) {
    let top = design.top().expect(rt, "a top").cell;
    let _there = cell_along(design, top, path).expect(rt, "a path");
    let path = Path::of(alloc, path).expect(rt, "memory for a path");
    let walk = Walk::at(alloc, design, &path).expect(rt, "a walk");
    gives(rt, alloc, design, walk, wanted);
}

/// A walk from the top gives these lines, and then stays at its end.
fn gives_whole(rt: &impl Abort, alloc: Global, design: &Design, wanted: &str) {
    let walk = Walk::new(alloc, design).expect(rt, "a walk");
    gives(rt, alloc, design, walk, wanted);
}

#[test]
fn a_walk_begins_at_a_path_or_the_top_and_stays_at_its_end(rt: HostRuntime) -> Result<(), Fail> {
    let alloc = rt.alloc();
    let board = board(alloc)?;
    for (path, wanted) in &BELOW {
        gives_at(&rt, alloc, &board, path, wanted);
    }
    gives_whole(&rt, alloc, &board, ITEMS);
    Ok(())
}

/// The items of the board; `+` stands behind one that another one of the same occurrence follows.
const PASSED: &str = "inst / w T
+net / X / X
+net / Y / X
inst /u w F
+net /u x / X
inst /v w V
+net /v y / X
inst /v/l w P
+pin /v/l a 0 / X
";

/// Adds the line of a walk's next item, and passes over it: a walk whose occurrence has no other item stays at this one at first.
fn add_passed(rt: &impl Abort, alloc: Global, walk: &mut Walk<&Design>, lines: &mut Vec<u8>) {
    let item = walk.current().expect(rt, "an item");
    lent_text(alloc, walk.design(), item, lines).expect(rt, "memory for a line");
    if walk.skip_within() {
        lines.push(b'+').expect(rt, "memory for a byte");
        return;
    }
    assert!(rt;
        walk.current().is_some(),
        "the last item of an occurrence is passed over"
    );
    walk.skip();
    assert!(rt;
        !walk.skip_within() && walk.current().is_none(),
        "an item of the next occurrence is passed over"
    );
}

#[test]
fn items_are_passed_over_within_an_occurrence(rt: HostRuntime) -> Result<(), Fail> {
    let board = board(rt.alloc())?;
    let mut walk = Walk::new(rt.alloc(), &board).expect(&rt, "a walk");
    let mut lines = Vec::new(rt.alloc());
    for _ in 0..100u32 {
        if !walk.advance()? {
            break;
        }
        add_passed(&rt, rt.alloc(), &mut walk, &mut lines);
    }
    assert_eq!(rt; lines.as_slice(), PASSED.as_bytes());
    Ok(())
}

/// There is no walk over the design, from its top and at the path with no step.
fn has_no_walk(rt: &impl Abort, alloc: Global, design: &Design) {
    let top = Path::of(alloc, &[]).expect(rt, "memory for a path");
    assert!(rt; Walk::new(alloc, design).err() == Some(WalkError::NoTop));
    assert!(rt; Walk::at(alloc, design, &top).err() == Some(WalkError::NoTop));
}

#[test]
fn there_is_no_walk_without_a_top(rt: HostRuntime) -> Result<(), Fail> {
    let bare = bare(rt.alloc())?;
    has_no_walk(&rt, rt.alloc(), &bare);
    Ok(())
}
