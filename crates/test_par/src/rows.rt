//! The same text for every number of workers, and workers that run at the same time.
ghost use Rattle.std.specs.Prelude.{◌≤◌};

use crate::designs::{blocks, counter, heavy, tree};
use crate::measures::{LateSink, Measure, TallyGate};
use flat_report::item_text;
use flat_spec::Item;
use flat_writer::{FlatError, write_flat};
use netdb_outside::{FreeGate, Hold, HoldGate, MemSink};
use netlist_schema::{Design, Row};
use par_flat::{WalkError, par_flat, write_par_flat};
use std::alloc::Global;
use std::process::Abort;
use std::test::Fail;
use std::thread::Threads;
use test_hand_designs::{bare, board};

/// The text of a design's flattening, by one walk.
fn plain_text(rt: &impl Abort, alloc: Global, design: &Design) -> MemSink {
    let mut out = MemSink::new(alloc, None);
    write_flat(alloc, design, None, &mut out).expect(rt, "a text");
    out
}

/// The lines of items, and `end`.
fn text_of(rt: &impl Abort, alloc: Global, design: &Design, items: &[Item]) -> Vec<u8> {
    let mut text = Vec::new(alloc);
    for item in items {
        item_text(alloc, design, item, &mut text).expect(rt, "memory for a line");
    }
    text.extend_from_slice(b"end\n")
        .expect(rt, "memory for a line");
    text
}

/// So many workers give these lines.
fn gives<R: Threads + Abort + Sync>(
    rt: &R,
    alloc: Global,
    design: &Design,
    workers: u32,
    wanted: &[u8],
)
    requires { (1 ≤ workers) × (workers ≤ 64) }
{
    let items = par_flat(rt, alloc, design, workers, &FreeGate).expect(rt, "items");
    let text = text_of(rt, alloc, design, items.as_slice());
    assert!(rt; text.as_slice() == wanted, "other items by {workers}");
}

/// So many workers write these lines.
fn writes<R: Threads + Abort + Sync>(
    rt: &R,
    alloc: Global,
    design: &Design,
    workers: u32,
    wanted: &[u8],
)
    requires { (1 ≤ workers) × (workers ≤ 64) }
{
    let mut out = MemSink::new(alloc, None);
    write_par_flat(rt, alloc, design, workers, &FreeGate, &mut out).expect(rt, "a text");
    assert!(rt; out.written() == wanted, "another text by {workers}");
}

/// So many workers give and write these lines.
fn both<R: Threads + Abort + Sync>(
    rt: &R,
    alloc: Global,
    design: &Design,
    workers: u32,
    wanted: &[u8],
)
    requires { (1 ≤ workers) × (workers ≤ 64) }
{
    gives(rt, alloc, design, workers, wanted);
    writes(rt, alloc, design, workers, wanted);
}

/// Each of these numbers of workers gives and writes what one walk does.
fn is_same<R: Threads + Abort + Sync>(rt: &R, alloc: Global, design: &Design) {
    let plain = plain_text(rt, alloc, design);
    both(rt, alloc, design, 1, plain.written());
    both(rt, alloc, design, 2, plain.written());
    both(rt, alloc, design, 3, plain.written());
    both(rt, alloc, design, 64, plain.written());
}

#[test]
fn any_number_of_workers_gives_the_board(rt: HostRuntime) -> Result<(), Fail> {
    let board = board(rt.alloc())?;
    is_same(&rt, rt.alloc(), &board);
    Ok(())
}

#[test]
fn any_number_of_workers_gives_the_counter(rt: HostRuntime) -> Result<(), Fail> {
    let counter = counter(rt.alloc())?;
    is_same(&rt, rt.alloc(), &counter);
    Ok(())
}

#[test]
fn any_number_of_workers_gives_the_tree(rt: HostRuntime) -> Result<(), Fail> {
    let tree = tree(rt.alloc())?;
    is_same(&rt, rt.alloc(), &tree);
    Ok(())
}

#[test]
fn workers_tell_what_is_connected_in_the_blocks(rt: HostRuntime) -> Result<(), Fail> {
    let blocks = blocks(rt.alloc())?;
    let plain = plain_text(&rt, rt.alloc(), &blocks);
    both(&rt, rt.alloc(), &blocks, 3, plain.written());
    Ok(())
}

/// There are no items.
fn has_none<R: Threads + Abort + Sync>(rt: &R, alloc: Global, design: &Design) {
    let mut out = MemSink::new(alloc, None);
    assert!(rt; par_flat(rt, alloc, design, 2, &FreeGate).err() == Some(WalkError::NoTop));
    assert!(rt; write_par_flat(rt, alloc, design, 2, &FreeGate, &mut out) == Err(FlatError::NoTop));
    assert!(rt; out.written().is_empty());
}

#[test]
fn there_are_no_items_without_a_top(rt: HostRuntime) -> Result<(), Fail> {
    let bare = bare(rt.alloc())?;
    has_none(&rt, rt.alloc(), &bare);
    Ok(())
}

/// A hold of a worker at a line until another one is at the same.
fn hold(caller: u32, until_caller: u32, line: u32) -> Hold {
    Hold {
        caller,
        line,
        until_caller,
        until_line: line,
    }
}

/// A gate that holds each of two workers before its first item, and behind its last one, until the other one is there.
fn meeting(alloc: Global, first: u32, second: u32) -> Result<HoldGate, Fail> {
    let holds = vec![in alloc;
        hold(first, second, 1),
        hold(second, first, 1),
        hold(first, second, 2),
        hold(second, first, 2),
    ]?;
    Ok(HoldGate::new(alloc, Row::of(holds))?)
}

/// So many workers, of which two meet at a gate, give what one walk does.
fn meet_giving<R: Threads + Abort + Sync>(
    rt: &R,
    alloc: Global,
    design: &Design,
    workers: u32,
    gate: &HoldGate,
)
    requires { (1 ≤ workers) × (workers ≤ 64) }
{
    let plain = plain_text(rt, alloc, design);
    let items = par_flat(rt, alloc, design, workers, gate).expect(rt, "items");
    let text = text_of(rt, alloc, design, items.as_slice());
    assert!(rt; text.as_slice() == plain.written(), "other items");
    assert!(rt; !gate.failed(), "they did not meet");
}

/// So many workers, of which two meet at a gate, write what one walk does.
fn meet_writing<R: Threads + Abort + Sync>(
    rt: &R,
    alloc: Global,
    design: &Design,
    workers: u32,
    gate: &HoldGate,
)
    requires { (1 ≤ workers) × (workers ≤ 64) }
{
    let plain = plain_text(rt, alloc, design);
    let mut out = MemSink::new(alloc, None);
    write_par_flat(rt, alloc, design, workers, gate, &mut out).expect(rt, "a text");
    assert!(rt; out.written() == plain.written(), "another text");
    assert!(rt; !gate.failed(), "they did not meet");
}

#[test]
fn two_workers_give_at_the_same_time(rt: HostRuntime) -> Result<(), Fail> {
    let gate = meeting(rt.alloc(), 0, 1)?;
    let counter = counter(rt.alloc())?;
    meet_giving(&rt, rt.alloc(), &counter, 2, &gate);
    Ok(())
}

#[test]
fn a_worker_without_items_calls_the_gate_too(rt: HostRuntime) -> Result<(), Fail> {
    let gate = meeting(rt.alloc(), 0, 63)?;
    let counter = counter(rt.alloc())?;
    meet_giving(&rt, rt.alloc(), &counter, 64, &gate);
    Ok(())
}

#[test]
fn two_workers_write_at_the_same_time(rt: HostRuntime) -> Result<(), Fail> {
    let gate = meeting(rt.alloc(), 0, 1)?;
    let counter = counter(rt.alloc())?;
    meet_writing(&rt, rt.alloc(), &counter, 2, &gate);
    Ok(())
}

#[test]
fn a_worker_without_lines_calls_the_gate_too(rt: HostRuntime) -> Result<(), Fail> {
    let gate = meeting(rt.alloc(), 5, 63)?;
    let counter = counter(rt.alloc())?;
    meet_writing(&rt, rt.alloc(), &counter, 64, &gate);
    Ok(())
}

/// How long a text of one of 64 workers may be behind which it makes no line, and the longest piece that it may make: a line more.
const BOUND: u64 = 262_144;

const LONGEST: u64 = BOUND + 61_000;

/// The first of 64 workers would make a longer text than it may. It stops, and more rounds follow; the text is that of one walk.
fn is_bounded<R: Threads + Abort + Sync>(rt: &R, alloc: Global, design: &Design) {
    let mut plain = Measure::new();
    write_flat(alloc, design, None, &mut plain).expect(rt, "a text");
    let gate = TallyGate::new();
    let mut out = Measure::new();
    write_par_flat(rt, alloc, design, 64, &gate, &mut out).expect(rt, "a text");
    assert!(rt;
        out.all == plain.all && out.sum == plain.sum,
        "another text"
    );
    assert!(rt;
        out.longest > BOUND && out.longest < LONGEST,
        "a piece of another length"
    );
    assert!(rt; gate.begins() > 64 && gate.begins() < 1_280, "other rounds");
}

#[test]
fn no_more_text_is_made_than_may_be(rt: HostRuntime) -> Result<(), Fail> {
    let heavy = heavy(rt.alloc())?;
    is_bounded(&rt, rt.alloc(), &heavy);
    Ok(())
}

/// The first lines are taken only when 64 workers have begun their first round and one of them has begun the next.
fn is_beside<R: Threads + Abort + Sync>(rt: &R, alloc: Global, design: &Design) {
    let gate = TallyGate::new();
    let mut out = LateSink::new(&gate, 65);
    write_par_flat(rt, alloc, design, 64, &gate, &mut out).expect(rt, "a text");
    assert!(rt;
        out.met,
        "no round was begun before the one before was written"
    );
}

#[test]
fn a_round_is_written_while_the_next_is_made(rt: HostRuntime) -> Result<(), Fail> {
    let heavy = heavy(rt.alloc())?;
    is_beside(&rt, rt.alloc(), &heavy);
    Ok(())
}
