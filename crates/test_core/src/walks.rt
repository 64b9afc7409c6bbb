//! The items that walks give.
ghost use Rattle.test_core.specs.Pins.{IsPinBy};

use crate::block_designs::blocks;
use crate::pins::commit_net;
use db_core::{Core, Pin, Snapshot};
use flat_report::item_text;
use flat_spec::Item;
use occ_walk::Walk;
use std::alloc::Global;
use std::process::Abort;
use std::test::Fail;

/// The items of the first version, in two parts, and those of the second one.
const FIRST_TWO: &str = "inst / w T
inst /a w A
";

const THIRD: &str = "inst /b w B
";

const ALL_LATER: &str = "inst / w T
inst /a w A
inst /b w B
net /b m /b m
";

/// Adds the line of an item.
fn add_line(rt: &impl Abort, alloc: Global, shown: &Snapshot, item: Item, lines: &mut Vec<u8>) {
    item_text(alloc, shown, &item, lines).expect(rt, "memory for a line");
}

/// The lines of the items that a walk goes on to give, so many at most.
fn next_lines(
    rt: &impl Abort,
    alloc: Global,
    shown: &Snapshot,
    walk: &mut Walk<Snapshot>,
    most: u32,
) -> Vec<u8> {
    let mut lines = Vec::new(alloc);
    for _ in 0..most {
        match walk.next().expect(rt, "memory for an item") {
            Some(item) => add_line(rt, alloc, shown, item, &mut lines),
            None => break,
        }
    }
    lines
}

/// A walk goes on to give these lines, of so many items at most.
fn gives(
    rt: &impl Abort,
    alloc: Global,
    shown: &Snapshot,
    walk: &mut Walk<Snapshot>,
    most: u32,
    wanted: &str,
) {
    let lines = next_lines(rt, alloc, shown, walk, most);
    assert!(rt; lines.as_slice() == wanted.as_bytes());
}

/// A walk over a version.
fn walk_over(rt: &impl Abort, alloc: Global, version: Snapshot) -> Walk<Snapshot> {
    Walk::new(alloc, version).expect(rt, "a walk")
}

/// The version of a pin.
fn version_of(rt: &impl Abort, held: &Pin) -> Snapshot {
    held.snapshot().expect(rt, "memory for a version")
}

/// Pins the last version, for the first caller.
fn pin_first(rt: &impl Abort, core: &mut Core) -> Pin
    ensures { IsPinBy core.new 0 result }
{
    match core.pin(0) {
        Ok(pin) => pin,
        Err(_) => rt.panic("no pin"),
    }
}

/// Another version is made, the pin of the first ends, and the first is dropped, and no other.
fn overtake(rt: &impl Abort, alloc: Global, core: &mut Core, held: Pin)
    requires { IsPinBy core.old 0 held }
{
    commit_net(rt, alloc, core, &held);
    core.release(held);
    assert_eq!(rt; core.collect(1), Ok(1));
}

/// A walk over a version that is pinned goes on when its pin has ended and it was dropped.
fn walk_across(rt: &impl Abort, alloc: Global, core: &mut Core) {
    let held = pin_first(rt, core);
    let shown = version_of(rt, &held);
    let mut walk = walk_over(rt, alloc, version_of(rt, &held));
    gives(rt, alloc, &shown, &mut walk, 2, FIRST_TWO);
    overtake(rt, alloc, core, held);
    gives(rt, alloc, &shown, &mut walk, 100, THIRD);
}

/// The last version has these items.
fn walk_later(rt: &impl Abort, alloc: Global, version: &Snapshot) {
    let shown = version.share().expect(rt, "memory for a version");
    let mut walk = walk_over(rt, alloc, shown);
    gives(rt, alloc, version, &mut walk, 100, ALL_LATER);
}

#[test]
fn a_walk_goes_on_after_its_pin_ends(rt: HostRuntime) -> Result<(), Fail> {
    let alloc = rt.alloc();
    let design = blocks(alloc)?;
    let mut core = Core::new(alloc, design).expect(&rt, "a database");
    walk_across(&rt, alloc, &mut core);
    walk_later(&rt, alloc, core.head());
    Ok(())
}
