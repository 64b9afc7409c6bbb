//! How much of the work each of two workers does.
use netdb_outside::{Gate, HoldGate};
use netlist_schema::{CellBody, CellId, Design, LibHead, LibId, Name, Note, Row, Shown, TopHead};
use std::sync::atomic::{AtomicU64, Ordering};

/// A design, and how often something of it was looked at.
#[derive(Clone, Copy)]
pub struct Watched<'a> {
    pub design: &'a Design,
    pub looks: &'a AtomicU64,
}

impl<'a> Watched<'a> {
    /// One look more.
    fn look(&self) {
        self.looks.fetch_add(1, Ordering::SeqCst);
    }
}

impl<'a> Shown for Watched<'a> {
    ghost design = { λ w. w.design.now };

    fn title(&self) -> &Name {
        self.look();
        self.design.title()
    }

    fn lib_count(&self) -> u32 {
        self.look();
        self.design.lib_count()
    }

    fn lib(&self, lib: LibId) -> Option<&LibHead> {
        self.look();
        self.design.lib(lib)
    }

    fn cell_count(&self, lib: LibId) -> u32 {
        self.look();
        self.design.cell_count(lib)
    }

    fn cell(&self, id: CellId) -> Option<&CellBody> {
        self.look();
        self.design.cell(id)
    }

    fn top(&self) -> Option<&TopHead> {
        self.look();
        self.design.top()
    }

    fn notes(&self) -> &Row<Note> {
        self.look();
        self.design.notes()
    }
}

/// How many looks there were when a worker began, and when it ended.
#[derive(Drop)]
pub struct WorkerSpan {
    begun: AtomicU64,
    ended: AtomicU64,
}

impl WorkerSpan {
    /// No look was there.
    fn new() -> WorkerSpan {
        WorkerSpan {
            begun: AtomicU64::new(0),
            ended: AtomicU64::new(0),
        }
    }

    /// How many looks there were between begin and end.
    fn looks(&self) -> u64 {
        let begun = self.begun.load(Ordering::SeqCst);
        self.ended.load(Ordering::SeqCst).saturating_sub(begun)
    }
}

/// A gate that holds the second of two workers until the first one has ended, and notes how often the design was looked at meanwhile.
#[derive(Drop)]
pub struct TurnGate<'a> {
    hold: &'a HoldGate,
    looks: &'a AtomicU64,
    first: WorkerSpan,
    second: WorkerSpan,
}

impl<'a> TurnGate<'a> {
    /// The gate with this hold, over a design that is looked at so often.
    pub fn new(hold: &'a HoldGate, looks: &'a AtomicU64) -> TurnGate<'a> {
        TurnGate {
            hold,
            looks,
            first: WorkerSpan::new(),
            second: WorkerSpan::new(),
        }
    }

    /// How many looks the first worker needed, and how many the second.
    pub fn looks(&self) -> (u64, u64) {
        (self.first.looks(), self.second.looks())
    }

    /// The turn of a worker.
    fn turn(&self, worker: u32) -> &WorkerSpan {
        if worker == 0 {
            &self.first
        } else {
            &self.second
        }
    }
}

impl<'a> Gate for TurnGate<'a> {
    fn reached(&self, caller: u32, line: u32) {
        let turn = self.turn(caller);
        if line == 2 {
            turn.ended
                .store(self.looks.load(Ordering::SeqCst), Ordering::SeqCst);
        }
        self.hold.reached(caller, line);
        if line == 1 {
            turn.begun
                .store(self.looks.load(Ordering::SeqCst), Ordering::SeqCst);
        }
    }
}
