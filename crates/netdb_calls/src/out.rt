//! `DescriptorOut`: a sink over a file descriptor of the system.
ghost use Rattle.std.specs.Prelude.{◌≡◌, ◌≤◌};
ghost use Rattle.netdb_outside.specs.Outside.{AppendsFront, Rose};
ghost use Rattle.netdb_calls.specs.Descriptors.{PutGives, bytes_told, fresh};

use netdb_outside::{Put, Sink};
use std::marker::Model;

/// A file descriptor. As contracts see it, it is the descriptor and the count of its faults: it tells no bytes. Nothing is kept back, and a
/// write that the system cuts short goes on with the rest.
#[derive(Drop)]
pub struct DescriptorOut {
    descriptor: i32,
    faults: u64,
}

impl Model for DescriptorOut {
    ghost use Rattle.netdb_calls.specs.Descriptors.{DescriptorFacts};

    ghost Value = { DescriptorFacts };

    ghost view = { λ d. record { descriptor = d.descriptor; faults = d.faults } };
}

impl DescriptorOut {
    /// The sink over this descriptor, which had no faults. Takes no memory.
    pub fn new(descriptor: i32) -> DescriptorOut
        ensures { result ≡ fresh descriptor }
    {
        DescriptorOut {
            descriptor,
            faults: 0,
        }
    }
}

impl Sink for DescriptorOut {
    ghost written = { λ d. bytes_told d };

    ghost faults = { λ d. d.faults };

    fn put(&mut self, piece: &[u8]) -> Put
        ensures front { AppendsFront (bytes_told self.old) (bytes_told self.new) piece.now }
        ensures failed { result ≡ Put.Failed → Rose self.old.faults self.new.faults }
        ensures never_falls { self.old.faults ≤ self.new.faults }
        ensures gives { PutGives self.old self.new result }
    {
        if io::write_all(self.descriptor, piece) {
            return Put::Put;
        }
        self.faults = self.faults.saturating_add(1);
        Put::Failed
    }
}
