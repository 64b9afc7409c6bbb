//! `HostOut`: the standard output.
ghost use Rattle.std.specs.Prelude.{◌≡◌, ◌≢◌, ◌≤◌, ℕ, None};
ghost use Rattle.netdb_outside.specs.Outside.{AppendsFront, Rose, raised};

use crate::sink::{Put, Sink};
use std::io::ErrorKind;
use std::marker::Model;

/// The standard output. As contracts see it, it is the count of its faults: it tells no bytes. Nothing is kept back, and a
/// write that the system cuts short goes on with the rest.
#[derive(Drop)]
pub struct HostOut<R: Print> {
    system: R,
    faults: u64,
}

impl<R: Print> Model for HostOut<R> {
    ghost Value = { ℕ };

    ghost view = { λ h. h.faults };
}

impl<R: Print> HostOut<R> {
    /// The standard output of this system. Takes no memory.
    pub fn new(system: R) -> HostOut<R>
        ensures { result ≡ 0 }
    {
        HostOut { system, faults: 0 }
    }
}

impl<R: Print> Sink for HostOut<R> {
    ghost written = { λ _. None };

    ghost faults = { λ h. h };

    fn put(&mut self, piece: &[u8]) -> Put
        ensures front { AppendsFront None None piece.now }
        ensures failed { result ≡ Put.Failed → Rose self.old self.new }
        ensures never_falls { self.old ≤ self.new }
        ensures raises { result ≡ Put.Failed → self.new ≡ raised self.old }
        ensures stays { result ≢ Put.Failed → self.new ≡ self.old }
    {
        match self.system.write_all(piece) {
            Ok(()) => Put::Put,
            Err(error) => {
                if error.kind() == ErrorKind::OutOfMemory {
                    return Put::NoMemory;
                }
                self.faults = self.faults.saturating_add(1);
                Put::Failed
            }
        }
    }
}
