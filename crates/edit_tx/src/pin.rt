//! `Pin`: a version that a caller holds.
ghost use Rattle.std.specs.Prelude.{◌≡◌, IfOk};

use db_version::Snapshot;
use netlist_schema::NoMemory;
use std::marker::Model;

/// A pin. It holds its version of the design, which can be read without the database.
pub struct Pin {
    number: u64,
    caller: u32,
    snapshot: Snapshot,
}

impl Drop for Pin {
    fn drop(self) {
        let Pin {
            number: _,
            caller: _,
            snapshot: _,
        } = self;
    }
}

impl Model for Pin {
    ghost use Rattle.edit_tx.specs.Facts.{PinFacts};

    ghost Value = { PinFacts };

    ghost view = { λ p. record { number = p.number; caller = p.caller; version = p.snapshot.version; design = p.snapshot.design } };
}

impl Pin {
    /// The pin of this number, of this caller, on this version. Takes no memory. A database makes its pins so; nobody else
    /// can bring another one to a call, since calls want a live pin.
    pub fn of(number: u64, caller: u32, snapshot: Snapshot) -> Pin
        ensures { result ≡ record { number = number; caller = caller; version = snapshot.version; design = snapshot.design } }
    {
        Pin {
            number,
            caller,
            snapshot,
        }
    }

    /// The number, in the order in which pins were made.
    pub fn number(&self) -> u64
        ensures { result ≡ self.now.number }
    {
        self.number
    }

    /// The caller that holds it.
    pub fn caller(&self) -> u32
        ensures { result ≡ self.now.caller }
    {
        self.caller
    }

    /// The number of the pinned version.
    pub fn version(&self) -> u64
        ensures { result ≡ self.now.version }
    {
        self.snapshot.version()
    }

    /// Lends the pinned version.
    pub fn snapshot_ref(&self) -> &Snapshot
        ensures { result.now ≡ record { version = self.now.version; design = self.now.design } }
    {
        &self.snapshot
    }

    /// The pinned version. It stays readable after the pin is released.
    pub fn snapshot(&self) -> Result<Snapshot, NoMemory>
        ensures { IfOk result (λ s. s ≡ record { version = self.now.version; design = self.now.design }) }
    {
        self.snapshot.share()
    }
}
