//! Two callers at a gate: what it is told of a block that is run again, and edits that are a cycle together.
use crate::calls::{Case, WRITE, Writes, check_at};
use crate::runs::{RETRIED, TWO_HOLDS, check_held};
use netdb_outside::{Gate, Hold, HoldGate};
use netlist_schema::Row;
use std::alloc::Global;
use std::process::Abort;
use std::sync::Wait;
use std::sync::atomic::{AtomicU32, Ordering};
use std::test::Fail;
use std::thread::Threads;
use test_texts::PAIR;

/// A gate that counts how often the first caller was at each of its first four lines, and then holds as another does.
#[derive(Drop)]
struct CountingGate {
    held: HoldGate,
    first: AtomicU32,
    second: AtomicU32,
    third: AtomicU32,
    fourth: AtomicU32,
}

impl CountingGate {
    /// The count of a line.
    fn count(&self, line: u32) -> Option<&AtomicU32> {
        match line {
            1 => Some(&self.first),
            2 => Some(&self.second),
            3 => Some(&self.third),
            4 => Some(&self.fourth),
            _ => None,
        }
    }

    fn counts(&self) -> [u32; 4] {
        [
            self.first.load(Ordering::SeqCst),
            self.second.load(Ordering::SeqCst),
            self.third.load(Ordering::SeqCst),
            self.fourth.load(Ordering::SeqCst),
        ]
    }
}

impl Gate for CountingGate {
    fn reached(&self, caller: u32, line: u32) {
        if caller == 0 {
            if let Some(count) = self.count(line) {
                count.fetch_add(1, Ordering::SeqCst);
            }
        }
        self.held.reached(caller, line);
    }
}

/// A gate with these holds, which has counted nothing.
fn counting(held: HoldGate) -> CountingGate {
    CountingGate {
        held,
        first: AtomicU32::new(0),
        second: AtomicU32::new(0),
        third: AtomicU32::new(0),
        fourth: AtomicU32::new(0),
    }
}

/// Checks the run in which the block of the first caller is run again, and how often its lines were told.
fn is_told_again<R: Abort + Threads + Wait + Sync>(
    rt: &R,
    alloc: Global,
    gate: &CountingGate,
) -> Result<(), Fail> {
    check_at(rt, alloc, gate, &RETRIED)?;
    assert!(rt; !gate.held.failed());
    assert!(rt; gate.counts() == [2, 2, 2, 1]);
    Ok(())
}

#[test]
fn a_block_that_is_run_again_tells_the_gate_again(rt: HostRuntime) -> Result<(), Fail> {
    let alloc = rt.alloc();
    let held = HoldGate::new(alloc, Row::of(TWO_HOLDS.to_vec(alloc)?))?;
    is_told_again(&rt, alloc, &counting(held))
}

/// The second caller pins behind the first, which commits when both have pinned; then the second commits.
static CYCLE_HOLDS: [Hold; 3] = [
    Hold {
        caller: 1,
        line: 1,
        until_caller: 0,
        until_line: 2,
    },
    Hold {
        caller: 0,
        line: 3,
        until_caller: 1,
        until_line: 2,
    },
    Hold {
        caller: 1,
        line: 3,
        until_caller: 0,
        until_line: 4,
    },
];

const DOWN: &str = "begin\nadd-inst w A i w B\ncommit\n";

const UP: &str = "begin\nadd-inst w B i w A\ncommit\nbegin\nadd-inst w B i w A\nabandon\n";

const CYCLE: &str = "history
0 caller 0 pin -> pin 0 version 0
1 caller 1 pin -> pin 1 version 0
2 caller 0 commit pin 0 -> committed 1
 add-inst w A i w B -> done
3 caller 0 release pin 0 -> released
4 caller 1 commit pin 1 -> conflict contents w A version 1
 add-inst w B i w A
5 caller 1 release pin 1 -> released
6 caller 1 pin -> pin 2 version 1
7 caller 1 release pin 2 -> released
script 0
begin 0
done
committed 1
script 1
begin 0
done
conflict contents w A version 1
begin 1
is-cyclic
";

/// Each of two callers places one cell in the other. The second is refused for a conflict, and then since it would make a cycle.
static CYCLIC: Case<'static> = Case {
    files: &[("F", &[PAIR]), ("0", &[DOWN]), ("1", &[UP])],
    words: &["run", "F", "0", "1"],
    writes: Writes::Each(&[CYCLE]),
    ..WRITE
};

#[test]
fn two_edits_that_are_a_cycle_together_are_not_both_done(rt: HostRuntime) -> Result<(), Fail> {
    check_held(&rt, rt.alloc(), &CYCLE_HOLDS, &CYCLIC)
}
