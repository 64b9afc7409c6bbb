//! Reading a whole file.
ghost use Rattle.std.specs.Prelude.{◌≡◌, ◌≤◌};
ghost use Rattle.netdb_outside.specs.Contents.{FileGives, IsFoundOut, ended_by};
ghost use Rattle.netdb_outside.specs.Outside.{SameFiles, Rose};
ghost use Rattle.netdb_outside.specs.Pieces.{VisitEnds};
ghost use Rattle.netdb_outside.specs.Visits.{AddsVisit};

use crate::files::Files;
use crate::pieces::{Ended, Taker, read_pieces};
use netlist_schema::{NoMemory, Text};
use std::alloc::Global;

/// What reading a file within a limit gives.
#[derive(Debug, Drop)]
pub enum FileRead {
    /// All bytes of the file, at most as many as the limit.
    Bytes(Text),
    /// The file has more bytes than the limit.
    TooLarge,
    /// There is no file of this name.
    Missing,
    /// There was a fault.
    Failed,
    /// There was no memory.
    NoMemory,
}

/// The bytes of a file so far.
#[derive(Drop)]
struct Gathered {
    bytes: Vec<u8>,
}

impl Taker for Gathered {
    ghost use Rattle.std.specs.Prelude.{◌≡◌};

    ghost took = { λ gathered bytes. gathered.bytes.items ≡ bytes };

    fn take_piece(&mut self, piece: &[u8]) -> Result<(), NoMemory> {
        self.bytes.extend_from_slice(piece)?;
        Ok(())
    }
}

/// Opens a file and reads it to its end, or to one byte past the limit and never further.
///
/// Where the files are told: it gives `Bytes` with all bytes of the file only where they are within the limit, `TooLarge`
/// only where they are more, and then just the bytes up to one past the limit were read, and `Missing` only where there is
/// no such file. So a file within the limit gives its bytes unless there was a fault or no memory; after those, part of it
/// may have been read. Where it is told which files were asked for: this one alone, and as far as the answer says.
pub fn read_file<F: Files>(alloc: Global, files: &mut F, name: &str, limit: u64) -> FileRead
    ensures files { SameFiles (F.told files.old) (F.told files.new) }
    ensures gives { FileGives (F.told files.new) name.now limit result }
    ensures failed { result ≡ FileRead.Failed → Rose (F.faults files.old) (F.faults files.new) }
    ensures quiet { IsFoundOut result → F.faults files.new ≡ F.faults files.old }
    ensures never_falls { F.faults files.old ≤ F.faults files.new }
    ensures visited { AddsVisit (F.visits files.old) (F.visits files.new) (VisitEnds name.now limit (ended_by result)) }
{
    let mut gathered = Gathered {
        bytes: Vec::new(alloc),
    };
    match read_pieces(alloc, files, name, limit, &mut gathered) {
        Ended::Whole => FileRead::Bytes(Text::of(gathered.bytes)),
        Ended::TooLarge => FileRead::TooLarge,
        Ended::Missing => FileRead::Missing,
        Ended::Failed => FileRead::Failed,
        Ended::NoMemory => FileRead::NoMemory,
    }
}
