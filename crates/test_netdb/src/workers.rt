//! Flattening by workers: the same text for every number of them, and workers that run at the same time.
use crate::calls::{Case, File, NO_TOP, NOTHING, OK, USAGE, WRITE, Writes, check_at, check_file};
use crate::texts::{COUNTER_ITEMS, HEAD, THROUGH, THROUGH_ITEMS};
use netdb_outside::{Hold, HoldGate};
use netlist_schema::Row;
use std::alloc::Global;
use std::process::Abort;
use std::sync::Wait;
use std::test::Fail;
use std::thread::Threads;
use test_texts::COUNTER;

/// Numbers of workers.
static NUMBERS: [&str; 4] = ["1", "2", "3", "64"];

/// Words that are no number of workers.
static NO_NUMBERS: [&str; 5] = ["0", "65", "", "-1", "2x"];

/// So many workers write these items of a file.
fn writes<R: Abort + Threads + Wait + Sync>(
    rt: &R,
    alloc: Global,
    number: &str,
    file: &str,
    items: &str,
) -> Result<(), Fail> {
    let words = ["flat", "F", "workers", number];
    check_file(rt, alloc, &[file], &words, OK, Writes::All(&[items]))
}

#[test]
fn any_number_of_workers_writes_the_same(rt: HostRuntime) -> Result<(), Fail> {
    for number in &NUMBERS {
        writes(&rt, rt.alloc(), *number, THROUGH, THROUGH_ITEMS)?;
        writes(&rt, rt.alloc(), *number, COUNTER, COUNTER_ITEMS)?;
    }
    Ok(())
}

/// A call with that number of workers, of a file with these pieces, ends so, and nothing is written.
fn ends<R: Abort + Threads + Wait + Sync>(
    rt: &R,
    alloc: Global,
    number: &str,
    pieces: &[&str],
    ends: &[&str],
) -> Result<(), Fail> {
    let words = ["flat", "F", "workers", number];
    check_file(rt, alloc, pieces, &words, ends, NOTHING)
}

#[test]
fn other_numbers_are_no_command(rt: HostRuntime) -> Result<(), Fail> {
    for number in &NO_NUMBERS {
        ends(&rt, rt.alloc(), *number, &[COUNTER], USAGE)?;
    }
    Ok(())
}

#[test]
fn there_is_no_flattening_without_a_top(rt: HostRuntime) -> Result<(), Fail> {
    for number in &NUMBERS {
        ends(&rt, rt.alloc(), *number, &[HEAD, ")"], NO_TOP)?;
    }
    Ok(())
}

/// A hold of a worker at a line until another one is at the same.
fn hold(caller: u32, until_caller: u32, line: u32) -> Hold {
    Hold {
        caller,
        line,
        until_caller,
        until_line: line,
    }
}

/// A gate at which two workers wait for each other before their first line, and behind their last one.
fn meeting(alloc: Global, first: u32, second: u32) -> Result<HoldGate, Fail> {
    let holds = vec![in alloc;
        hold(first, second, 1),
        hold(second, first, 1),
        hold(first, second, 2),
        hold(second, first, 2),
    ]?;
    Ok(HoldGate::new(alloc, Row::of(holds))?)
}

/// The counter as a file F.
static COUNTER_FILE: [File<'static>; 1] = [("F", &[COUNTER])];

/// A call on the counter writes its items, and each hold is met.
fn meet<'a, R: Abort + Threads + Wait + Sync>(
    rt: &R,
    alloc: Global,
    gate: &HoldGate,
    words: &'a [&'a str],
) -> Result<(), Fail> {
    let case = Case {
        files: &COUNTER_FILE,
        words,
        writes: Writes::All(&[COUNTER_ITEMS]),
        ..WRITE
    };
    check_at(rt, alloc, gate, &case)?;
    assert!(rt; !gate.failed(), "the workers did not meet");
    Ok(())
}

#[test]
fn two_workers_run_at_the_same_time(rt: HostRuntime) -> Result<(), Fail> {
    let gate = meeting(rt.alloc(), 0, 1)?;
    meet(&rt, rt.alloc(), &gate, &["flat", "F", "workers", "2"])
}

#[test]
fn a_worker_without_lines_calls_the_gate_too(rt: HostRuntime) -> Result<(), Fail> {
    let gate = meeting(rt.alloc(), 0, 63)?;
    meet(&rt, rt.alloc(), &gate, &["flat", "F", "workers", "64"])
}
