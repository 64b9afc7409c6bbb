//! `HoldGate`: a gate that makes callers wait for each other, for tests.
use crate::gate::Gate;
use netlist_schema::{NoMemory, Row};
use std::alloc::Global;
use std::sync::atomic::{AtomicBool, Ordering};

/// How often a hold looks before it gives up.
const MOST_LOOKS: u32 = 500_000_000;

/// A caller at a line is held until another caller is at a line.
#[derive(Clone, Copy, Debug, PartialEq, Eq)]
pub struct Hold {
    pub caller: u32,
    pub line: u32,
    pub until_caller: u32,
    pub until_line: u32,
}

/// A hold, and what came of it so far.
#[derive(Drop)]
struct Watched {
    hold: Hold,
    /// The held caller was at its line.
    held: AtomicBool,
    /// The other caller was at its line.
    freed: AtomicBool,
}

/// A gate with holds. It promises nothing of time: a hold that looked 500,000,000 times in vain gives up, and the gate has failed.
#[derive(Drop)]
pub struct HoldGate {
    watched: Row<Watched>,
    gave_up: AtomicBool,
}

/// Looks until the flag is set. `false` where it never was.
fn looks(flag: &AtomicBool) -> bool {
    for _ in 0..MOST_LOOKS {
        if flag.load(Ordering::SeqCst) {
            return true;
        }
    }
    false
}

impl HoldGate {
    /// A gate with these holds, at which nobody was yet. `NoMemory` drops the holds.
    pub fn new(alloc: Global, holds: Row<Hold>) -> Result<HoldGate, NoMemory> {
        let mut watched = Row::of(Vec::new(alloc));
        for hold in holds.as_slice() {
            watched.push(Watched {
                hold: *hold,
                held: AtomicBool::new(false),
                freed: AtomicBool::new(false),
            })?;
        }
        Ok(HoldGate {
            watched,
            gave_up: AtomicBool::new(false),
        })
    }

    /// Whether a hold gave up, or the caller of some hold was not yet at its line.
    pub fn failed(&self) -> bool {
        if self.gave_up.load(Ordering::SeqCst) {
            return true;
        }
        for watched in self.watched.as_slice() {
            if !watched.held.load(Ordering::SeqCst) {
                return true;
            }
        }
        false
    }

    /// Notes that the caller is at this line.
    fn note(&self, caller: u32, line: u32) {
        for watched in self.watched.as_slice() {
            if watched.hold.caller == caller && watched.hold.line == line {
                watched.held.store(true, Ordering::SeqCst);
            }
            if watched.hold.until_caller == caller && watched.hold.until_line == line {
                watched.freed.store(true, Ordering::SeqCst);
            }
        }
    }
}

impl Gate for HoldGate {
    /// Notes the caller and the line, and then waits at each hold of them.
    fn reached(&self, caller: u32, line: u32) {
        self.note(caller, line);
        for watched in self.watched.as_slice() {
            if watched.hold.caller == caller
                && watched.hold.line == line
                && !looks(&watched.freed)
            {
                self.gave_up.store(true, Ordering::SeqCst);
            }
        }
    }
}
