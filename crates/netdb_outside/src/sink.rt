//! `Sink`: what takes the bytes that are written.
ghost use Rattle.std.specs.Prelude.{◌≡◌, ◌≤◌, ℕ, List, Option};
ghost use Rattle.netdb_outside.specs.Outside.{Appends, AppendsFront, Rose};

/// What a put answers.
#[derive(Clone, Copy, Debug, PartialEq, Eq)]
pub enum Put {
    /// The whole piece was written.
    Put,
    /// There was a fault.
    Failed,
    /// There was no memory.
    NoMemory,
}

/// An outside that takes bytes in order, and may tell those that it took.
pub trait Sink {
    /// The bytes that were written, where they are told.
    ghost written: { Self → Option (List ℕ) };

    /// How many faults there were. The count stands still at its type's end.
    ghost faults: { Self → ℕ };

    /// Writes a piece. After an answer other than `Put` a front of the piece was written, which may be none of it or all.
    fn put(&mut self, piece: &[u8]) -> Put
        ensures put { result ≡ Put.Put → Appends (written self.old) (written self.new) piece.now }
        ensures front { AppendsFront (written self.old) (written self.new) piece.now }
        ensures failed { result ≡ Put.Failed → Rose (faults self.old) (faults self.new) }
        ensures never_falls { faults self.old ≤ faults self.new };
}
