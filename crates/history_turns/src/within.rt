//! The lines of a walk, as long as the caller has said no more than so many bytes.
ghost use Rattle.std.specs.Prelude.{◌≡◌, ◌++◌, None, Some, IfOk};
ghost use Rattle.flat_lines_spec.specs.Lines.{flattening_text, item_lines, last_line, shown_items};
ghost use Rattle.script_say.specs.Items.{IsLeft, SaysNext};
ghost use Rattle.history_turns.specs.Within.{IsSaid};

use db_core::Pin;
use db_version::Snapshot;
use flat_report::item_text;
use netlist_schema::NoMemory;
use occ_walk::Walk;
use std::alloc::Global;

/// Says the next item, where one is left: whether there was one.
fn say_next(
    alloc: Global,
    walk: &mut Walk<Snapshot>,
    design: &Snapshot,
    said: &mut Vec<u8>,
) -> Result<bool, NoMemory>
    ensures { IfOk result (SaysNext design.now.design walk.old.left walk.new.left said.old.items said.new.items) }
{
    match walk.next()? {
        Some(item) => {
            item_text(alloc, design, &item, said)?;
            Ok(true)
        }
        None => Ok(false),
    }
}

/// Whether an item is left.
fn is_left(walk: &mut Walk<Snapshot>) -> Result<bool, NoMemory>
    ensures { IfOk result (IsLeft walk.old.left) }
{
    match walk.next()? {
        Some(_) => Ok(true),
        None => Ok(false),
    }
}

/// Says the last bytes of a walk: whether the caller has said at most so many.
fn say_last(bytes: &[u8], most: usize, said: &mut Vec<u8>) -> Result<bool, NoMemory>
    ensures { IfOk result (IsSaid said.old.items bytes.now most said.new.items) }
{
    said.extend_from_slice(bytes)?;
    Ok(said.len() <= most)
}

/// Says all items that are left, and `end`, as long as the caller has said at most so many bytes: whether it said them all.
fn say_all(
    alloc: Global,
    walk: &mut Walk<Snapshot>,
    design: &Snapshot,
    most: usize,
    said: &mut Vec<u8>,
) -> Result<bool, NoMemory>
    ensures { IfOk result (IsSaid said.old.items (item_lines design.now.design walk.old.left ++ last_line None walk.old.left) most said.new.items) }
{
    'items: loop {
        if said.len() > most {
            return Ok(false);
        }
        if !say_next(alloc, walk, design, said)? {
            return say_last(b"end\n", most, said);
        }
    }
}

/// Says at most so many of the items that are left, and `end`, or `more` where items are left then, as long as the caller has said at
/// most so many bytes: whether it said them all.
fn say_most(
    alloc: Global,
    walk: &mut Walk<Snapshot>,
    design: &Snapshot,
    limit: u64,
    most: usize,
    said: &mut Vec<u8>,
) -> Result<bool, NoMemory>
    ensures { IfOk result (IsSaid said.old.items (item_lines design.now.design (shown_items (Some limit) walk.old.left) ++ last_line (Some limit) walk.old.left) most said.new.items) }
{
    for _shown in 0..limit {
        if said.len() > most {
            return Ok(false);
        }
        if !say_next(alloc, walk, design, said)? {
            return say_last(b"end\n", most, said);
        }
    }
    if is_left(walk)? {
        return say_last(b"more\n", most, said);
    }
    say_last(b"end\n", most, said)
}

/// Says the items of the pinned version, as long as the caller has said at most so many bytes: whether it said them all. No more than
/// one item is made beyond those bytes.
pub(crate) fn show(
    alloc: Global,
    pin: &Pin,
    limit: Option<u64>,
    most: usize,
    said: &mut Vec<u8>,
) -> Result<bool, NoMemory>
    requires { ¬ (pin.now.design.top ≡ None) }
    ensures { IfOk result (IsSaid said.old.items (flattening_text pin.now.design limit) most said.new.items) }
{
    let Ok(mut walk) = Walk::new(alloc, pin.snapshot()?) else {
        return Err(NoMemory);
    };
    match limit {
        Some(limit) => say_most(alloc, &mut walk, pin.snapshot_ref(), limit, most, said),
        None => say_all(alloc, &mut walk, pin.snapshot_ref(), most, said),
    }
}
