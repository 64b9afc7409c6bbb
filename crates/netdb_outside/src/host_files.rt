//! `HostFiles`: the files of the system.
ghost use Rattle.std.specs.Prelude.{◌≡◌, ◌≢◌, ◌↔◌, ◌<◌, ◌≤◌, ℕ, length, None};
ghost use Rattle.std.specs.Io.{ReadsAtMost};
ghost use Rattle.std.specs.IoError.{error_kind};
ghost use Rattle.netdb_outside.specs.Outside.{Rose, raised};
ghost use Rattle.netdb_outside.specs.Reading.{ReadGives};

use crate::files::{Files, Got, Opened};
use std::fs::File;
use std::io::{ErrorKind, Read};
use std::marker::Model;
use std::{io, rt};

/// The files of the system, one of which is read at a time. A name is a path. As contracts see it, it is the count of its
/// faults: it tells neither files nor which were asked for. A read that a signal interrupts is tried up to 64 times, and then
/// it is a fault. A path with a NUL byte is a fault when it is opened, and a folder when it is read.
#[derive(Drop)]
pub struct HostFiles<R: rt::Files> {
    system: R,
    file: Option<R::File>,
    faults: u64,
}

impl<R: rt::Files> Model for HostFiles<R> {
    ghost Value = { ℕ };

    ghost view = { λ h. h.faults };
}

/// How often a read that a signal interrupts is tried.
const TRIES: u32 = 64;

impl<R: rt::Files> HostFiles<R> {
    /// The files of this system, none of them opened. Takes no memory.
    pub fn new(system: R) -> HostFiles<R>
        ensures { result ≡ 0 }
    {
        HostFiles {
            system,
            file: None,
            faults: 0,
        }
    }
}

impl<R: rt::Files> Files for HostFiles<R> {
    ghost told = { λ _. None };

    ghost faults = { λ h. h };

    ghost visits = { λ _ _. Unit {0} };

    fn open_file(&mut self, name: &str) -> Opened
        ensures failed { result ≡ Opened.Failed → Rose self.old self.new }
        ensures never_falls { self.old ≤ self.new }
        ensures raises { result ≡ Opened.Failed → self.new ≡ raised self.old }
        ensures stays { result ≢ Opened.Failed → self.new ≡ self.old }
    {
        match File::open(&self.system, name) {
            Ok(file) => {
                self.file = Some(file);
                Opened::Ready
            }
            Err(error) => {
                self.file = None;
                let answer = refused_opening(&error);
                if answer == Opened::Failed {
                    self.faults = self.faults.saturating_add(1);
                }
                answer
            }
        }
    }

    fn read(&mut self, buf: &mut [u8]) -> Got
        requires { 0 < length buf.old }
        ensures gives { ReadGives None None buf.new result }
        ensures failed { result ≡ Got.Failed → Rose self.old self.new }
        ensures never_falls { self.old ≤ self.new }
        ensures raises { result ≡ Got.Failed → self.new ≡ raised self.old }
        ensures stays { result ≢ Got.Failed → self.new ≡ self.old }
    {
        let Some(file) = &mut self.file else {
            return Got::End;
        };
        match read_retrying(file, buf) {
            Ok(0) => Got::End,
            Ok(count) => Got::Bytes(count),
            Err(error) => {
                if error.kind() == ErrorKind::OutOfMemory {
                    return Got::NoMemory;
                }
                self.faults = self.faults.saturating_add(1);
                Got::Failed
            }
        }
    }
}

/// What an opening answers that the system refused.
fn refused_opening(error: &io::Error) -> Opened
    ensures missing { (result ≡ Opened.Missing) ↔ (error_kind error.now ≡ ErrorKind.NotFound) }
    ensures no_memory { (result ≡ Opened.NoMemory) ↔ (error_kind error.now ≡ ErrorKind.OutOfMemory) }
    ensures not_ready { result ≢ Opened.Ready }
{
    match error.kind() {
        ErrorKind::NotFound => Opened::Missing,
        ErrorKind::OutOfMemory => Opened::NoMemory,
        _ => Opened::Failed,
    }
}

/// One read, tried again where a signal interrupts it, some times. An error that it answers is the last one. Takes no memory.
pub fn read_retrying<F: Read>(file: &mut F, buf: &mut [u8]) -> io::Result<usize>
    ensures { ReadsAtMost result buf.new }
{
    for _ in 0..TRIES {
        match file.read(buf) {
            Err(error) if error.kind() == ErrorKind::Interrupted => {}
            done => return done,
        }
    }
    Err(io::Error::from(ErrorKind::Interrupted))
}
