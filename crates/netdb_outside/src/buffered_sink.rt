//! `BufferedSink`: bytes on their way to a sink.
ghost use Rattle.std.specs.Prelude.{◌≡◌, ◌++◌, ℕ, List, [], None, is_some, IfErr, OnErr, OnOk};
ghost use Rattle.netdb_outside.specs.Buffered.{Writes, nothing_waits, out_of_memory};

use crate::sink::{Put, Sink};
use crate::write_error::WriteError;
use netlist_schema::NoMemory;
use std::alloc::Global;
use std::marker::Model;

/// From how many bytes on they are put.
const PIECE: usize = 32_768;

/// What can be appended to bytes.
pub trait Appended {
    /// The bytes of its text.
    ghost text: { Self → List ℕ };

    /// Appends its text. After `NoMemory` the bytes are as before.
    fn append_to(&self, alloc: Global, bytes: &mut Vec<u8>) -> Result<(), NoMemory>
        ensures ok { OnOk result (bytes.new.items ≡ bytes.old.items ++ text self.now) }
        ensures err { OnErr result (bytes.new.items ≡ bytes.old.items) };
}

/// Bytes that wait for a sink, and the first failure. They are put in pieces of some kilobytes, and what is longer by itself. From a failure on nothing more
/// is put. Each call is given the sink, which is to be the same one.
#[derive(Debug, Drop)]
pub struct BufferedSink {
    waiting: Vec<u8>,
    failure: Option<WriteError>,
}

impl Model for BufferedSink {
    ghost use Rattle.netdb_outside.specs.Buffered.{Buffered};

    ghost Value = { Buffered };

    ghost view = { λ b. record { waiting = b.waiting.items; failure = b.failure } };
}

impl BufferedSink {
    /// Nothing waits, and nothing has failed. Takes no memory.
    pub fn new(alloc: Global) -> BufferedSink
        ensures { result ≡ nothing_waits }
    {
        BufferedSink {
            waiting: Vec::new(alloc),
            failure: None,
        }
    }

    /// Whether something has failed.
    #[inline(always)]
    pub fn is_stuck(&self) -> bool
        ensures { result ≡ is_some self.now.failure }
    {
        self.failure.is_some()
    }

    /// Writes bytes as they are. Those that are enough for a piece are not copied: what waits is put before them.
    #[inline(always)]
    pub fn put<K: Sink>(&mut self, bytes: &[u8], out: &mut K)
        ensures { Writes K.written K.faults out.old self.old out.new self.new bytes.now }
    {
        if bytes.len() >= PIECE {
            self.put_through(bytes, out);
        } else {
            self.put_behind(bytes, out);
        }
    }

    /// Lets bytes wait behind the others.
    #[inline(always)]
    fn put_behind<K: Sink>(&mut self, bytes: &[u8], out: &mut K)
        ensures { Writes K.written K.faults out.old self.old out.new self.new bytes.now }
    {
        if self.is_stuck() {
            return;
        }
        match self.waiting.extend_from_slice(bytes) {
            Ok(()) => self.pass_on(out),
            Err(_) => self.failure = Some(WriteError::NoMemory),
        }
    }

    /// Puts what waits, and then these bytes.
    #[cold]
    #[inline(never)]
    fn put_through<K: Sink>(&mut self, bytes: &[u8], out: &mut K)
        ensures { Writes K.written K.faults out.old self.old out.new self.new bytes.now }
    {
        self.flush(out);
        self.hand_on(bytes, out);
    }

    /// Puts these bytes, where nothing waits and nothing has failed.
    #[tactic(auto, using(crate::proofs::BufferedLemmas::put_whole, crate::proofs::BufferedLemmas::put_broken, crate::proofs::BufferedLemmas::writes_stuck))]
    fn hand_on<K: Sink>(&mut self, bytes: &[u8], out: &mut K)
        requires { self.old.failure ≡ None → self.old.waiting ≡ [] }
        ensures { Writes K.written K.faults out.old self.old out.new self.new bytes.now }
    {
        if self.is_stuck() {
            return;
        }
        match out.put(bytes) {
            Put::Put => {}
            Put::Failed => self.failure = Some(WriteError::WriteFault),
            Put::NoMemory => self.failure = Some(WriteError::NoMemory),
        }
    }

    /// Writes a text.
    pub fn put_text<T: Appended, K: Sink>(&mut self, alloc: Global, text: &T, out: &mut K)
        ensures { Writes K.written K.faults out.old self.old out.new self.new (T.text text.now) }
    {
        if self.is_stuck() {
            return;
        }
        match text.append_to(alloc, &mut self.waiting) {
            Ok(()) => self.pass_on(out),
            Err(NoMemory) => self.failure = Some(WriteError::NoMemory),
        }
    }

    /// Tells that there was no memory. Nothing more is put.
    pub fn run_out(&mut self)
        ensures { self.new ≡ out_of_memory self.old }
    {
        self.failure = Some(WriteError::NoMemory);
    }

    /// Puts what waits, where it is enough for a piece.
    #[inline(always)]
    fn pass_on<K: Sink>(&mut self, out: &mut K)
        ensures { Writes K.written K.faults out.old self.old out.new self.new [] }
    {
        if self.waiting.len() >= PIECE {
            self.flush(out);
        }
    }

    /// Puts what waits, where nothing has failed.
    #[inline(never)]
    fn flush<K: Sink>(&mut self, out: &mut K)
        ensures written { Writes K.written K.faults out.old self.old out.new self.new [] }
        ensures empty { self.new.failure ≡ None → self.new.waiting ≡ [] }
    {
        if self.is_stuck() {
            return;
        }
        match out.put(self.waiting.as_slice()) {
            Put::Put => self.waiting.clear(),
            Put::Failed => self.failure = Some(WriteError::WriteFault),
            Put::NoMemory => self.failure = Some(WriteError::NoMemory),
        }
    }

    /// Puts what still waits, and tells the first failure.
    pub fn finish<K: Sink>(&mut self, out: &mut K) -> Result<(), WriteError>
        ensures written { Writes K.written K.faults out.old self.old out.new self.new [] }
        ensures ok { OnOk result (self.new ≡ nothing_waits) }
        ensures err { IfErr result (λ e. self.new.failure ≡ Some e) }
    {
        self.flush(out);
        match self.failure {
            None => Ok(()),
            Some(failure) => Err(failure),
        }
    }
}
