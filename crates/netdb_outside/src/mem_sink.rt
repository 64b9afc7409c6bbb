//! `MemSink`: a sink in memory.
ghost use Rattle.std.specs.Prelude.{◌≡◌, ◌<◌, ◌≤◌, ℕ, List, [], ◌++◌, length, Some};
ghost use Rattle.netdb_outside.specs.MemSink.{Fits, PutGives, fitting};
ghost use Rattle.netdb_outside.specs.Outside.{Appends, AppendsFront, Rose};

use crate::sink::{Put, Sink};
use std::alloc::Global;
use std::marker::Model;

/// A sink that keeps the bytes. Where it has a length, the put that would pass that writes what fits, and fails.
#[derive(Debug, Drop)]
pub struct MemSink {
    bytes: Vec<u8>,
    most: Option<u64>,
    faults: u64,
}

impl Model for MemSink {
    ghost use Rattle.netdb_outside.specs.MemSink.{SinkFacts};

    ghost Value = { SinkFacts };

    ghost view = { λ s. record { bytes = s.bytes.items; most = s.most; faults = s.faults } };
}

impl MemSink {
    /// A sink with nothing in it, for at most `length` bytes where a length is given. Takes no memory.
    pub fn new(alloc: Global, length: Option<u64>) -> MemSink
        ensures { result ≡ record { bytes = []; most = length; faults = 0 } }
    {
        MemSink {
            bytes: Vec::new(alloc),
            most: length,
            faults: 0,
        }
    }

    /// Lends the bytes that were written, in order. Takes no memory.
    pub fn written(&self) -> &[u8]
        ensures { result.now ≡ self.now.bytes }
    {
        self.bytes.as_slice()
    }
}

/// The front of a piece that fits behind the held bytes.
fn front_that_fits<'a>(most: Option<u64>, held: &[u8], piece: &'a [u8]) -> &'a [u8]
    ensures value { result.now ≡ fitting most held.now piece.now }
    ensures front { (left : List ℕ) × (piece.now ≡ result.now ++ left) }
    ensures fits { length result.now ≡ length piece.now → Fits most held.now piece.now }
    ensures passes { length result.now < length piece.now → Fits most held.now piece.now → ⊥ }
{
    match most {
        None => piece,
        Some(most) => {
            let room = most.saturating_sub(held.len() as u64);
            if room < piece.len() as u64 {
                &piece[..room as usize]
            } else {
                piece
            }
        }
    }
}

impl Sink for MemSink {
    ghost written = { λ s. Some s.bytes };

    ghost faults = { λ s. s.faults };

    fn put(&mut self, piece: &[u8]) -> Put
        ensures put { result ≡ Put.Put → Appends (Some self.old.bytes) (Some self.new.bytes) piece.now }
        ensures front { AppendsFront (Some self.old.bytes) (Some self.new.bytes) piece.now }
        ensures failed { result ≡ Put.Failed → Rose self.old.faults self.new.faults }
        ensures never_falls { self.old.faults ≤ self.new.faults }
        ensures gives { PutGives self.old self.new piece.now result }
    {
        let front = front_that_fits(self.most, self.bytes.as_slice(), piece);
        if self.bytes.extend_from_slice(front).is_err() {
            return Put::NoMemory;
        }
        if front.len() < piece.len() {
            self.faults = self.faults.saturating_add(1);
            return Put::Failed;
        }
        Put::Put
    }
}
