//! What is measured of a run.
ghost use Rattle.std.specs.Prelude.{None};

use netdb_outside::{Gate, Put, Sink};
use std::sync::atomic::{AtomicU64, Ordering};

/// A sink that keeps no bytes: how many there were, a sum of them by their places, and how many stood in the longest piece.
#[derive(Clone, Copy)]
pub struct Measure {
    pub all: u64,
    pub sum: u64,
    pub longest: u64,
}

impl Measure {
    /// Nothing was written.
    pub fn new() -> Measure {
        Measure {
            all: 0,
            sum: 0,
            longest: 0,
        }
    }
}

impl Sink for Measure {
    ghost written = { λ s. None };

    ghost faults = { λ s. 0 };

    fn put(&mut self, piece: &[u8]) -> Put {
        let length = piece.len() as u64;
        self.all = self.all.wrapping_add(length);
        self.longest = self.longest.max(length);
        for byte in piece {
            self.sum = self.sum.wrapping_mul(31).wrapping_add(u64::from(*byte));
        }
        Put::Put
    }
}

/// How often a sink looks before it gives up.
const MOST_LOOKS: u32 = 500_000_000;

/// A sink that keeps no bytes, and takes its first piece only when so many begins were told at a gate: whether they were.
#[derive(Clone, Copy)]
pub struct LateSink<'a> {
    pub gate: &'a TallyGate,
    pub begins: u64,
    pub taken: u64,
    pub met: bool,
}

impl<'a> LateSink<'a> {
    /// A sink that took nothing.
    pub fn new(gate: &'a TallyGate, begins: u64) -> LateSink<'a> {
        LateSink {
            gate,
            begins,
            taken: 0,
            met: false,
        }
    }

    /// Looks until so many begins were told: whether they were.
    fn looks(&self) -> bool {
        for _ in 0..MOST_LOOKS {
            if self.gate.begins() >= self.begins {
                return true;
            }
        }
        false
    }
}

impl<'a> Sink for LateSink<'a> {
    ghost written = { λ s. None };

    ghost faults = { λ s. 0 };

    fn put(&mut self, piece: &[u8]) -> Put {
        if self.taken == 0 {
            self.met = self.looks();
        }
        self.taken = self.taken.saturating_add(piece.len() as u64);
        Put::Put
    }
}

/// A gate that counts those who begin and end, and notes which ones do.
#[derive(Drop)]
pub struct TallyGate {
    begins: AtomicU64,
    ends: AtomicU64,
    begun: AtomicU64,
    ended: AtomicU64,
}

impl TallyGate {
    /// Nobody was there.
    pub fn new() -> TallyGate {
        TallyGate {
            begins: AtomicU64::new(0),
            ends: AtomicU64::new(0),
            begun: AtomicU64::new(0),
            ended: AtomicU64::new(0),
        }
    }

    /// How often a begin was told.
    pub fn begins(&self) -> u64 {
        self.begins.load(Ordering::SeqCst)
    }

    /// Whether each of so many workers, 1 to 64, told its begin and its end once, and nobody else did.
    pub fn told_all(&self, workers: u32) -> bool {
        let all = u64::MAX.wrapping_shr(64u32.saturating_sub(workers));
        self.begins.load(Ordering::SeqCst) == u64::from(workers)
            && self.ends.load(Ordering::SeqCst) == u64::from(workers)
            && self.begun.load(Ordering::SeqCst) == all
            && self.ended.load(Ordering::SeqCst) == all
    }
}

impl Gate for TallyGate {
    fn reached(&self, caller: u32, line: u32) {
        let one = 1u64.wrapping_shl(caller);
        if line == 1 {
            self.begins.fetch_add(1, Ordering::SeqCst);
            self.begun.fetch_or(one, Ordering::SeqCst);
        }
        if line == 2 {
            self.ends.fetch_add(1, Ordering::SeqCst);
            self.ended.fetch_or(one, Ordering::SeqCst);
        }
    }
}

/// A gate that holds nobody, and notes who begins and ends, and whether one begins before another one has ended.
#[derive(Drop)]
pub struct OpenGate {
    pub tally: TallyGate,
    inside: AtomicU64,
    met: AtomicU64,
}

impl OpenGate {
    /// Nobody was there.
    pub fn new() -> OpenGate {
        OpenGate {
            tally: TallyGate::new(),
            inside: AtomicU64::new(0),
            met: AtomicU64::new(0),
        }
    }

    /// Whether two were between begin and end at the same time.
    pub fn have_met(&self) -> bool {
        self.met.load(Ordering::SeqCst) > 0
    }
}

impl Gate for OpenGate {
    fn reached(&self, caller: u32, line: u32) {
        self.tally.reached(caller, line);
        if line == 1 {
            let before = self.inside.fetch_add(1, Ordering::SeqCst);
            self.met.fetch_add(before, Ordering::SeqCst);
        }
        if line == 2 {
            self.inside.fetch_sub(1, Ordering::SeqCst);
        }
    }

    fn may_hold(&self) -> bool {
        false
    }
}
