//! Reading a file in pieces.
ghost use Rattle.std.specs.Prelude.{◌≡◌, ◌<◌, ◌≤◌, ◌+◌, ◌++◌, ◌∷◌, [], ℕ, List, length, take, vec_len, IfOk, OnOk};
ghost use Rattle.netdb_outside.specs.Outside.{SameFiles, Rose};
ghost use Rattle.netdb_outside.specs.Pieces.{Continues, FileEnds, GoesTo, IsRead, PieceGives, RestEnds, VisitEnds};
ghost use Rattle.netdb_outside.specs.Reading.{ReadGives, ReadsOn};
ghost use Rattle.netdb_outside.specs.Visits.{AddsVisit, Visit, read_on};

use crate::files::{Files, Got, Opened};
use netlist_schema::NoMemory;
use std::alloc::{AllocError, Global};

/// What takes the bytes of a file, piece by piece.
pub trait Taker {
    /// That just these bytes were taken.
    ghost took: { Self → List ℕ → Type 0 };

    /// Takes the next bytes. After `NoMemory` nothing is said of what was taken; `read_pieces` then hands on no more.
    fn take_piece(&mut self, piece: &[u8]) -> Result<(), NoMemory>
        ensures { OnOk result ((bytes : List ℕ) → took self.old bytes → took self.new (bytes ++ piece.now)) };
}

/// How the reading of a file within a limit ended.
#[derive(Clone, Copy, Debug, PartialEq, Eq)]
pub enum Ended {
    /// All bytes of the file were taken, at most as many as the limit.
    Whole,
    /// The file has more bytes than the limit.
    TooLarge,
    /// There is no file of this name.
    Missing,
    /// There was a fault.
    Failed,
    /// There was no memory.
    NoMemory,
}

/// How many bytes are asked for at once.
const PIECE: usize = 65_536;

/// Opens a file and hands its bytes on in pieces of at most 65,536, to its end, or to one byte past the limit and never further.
///
/// Where the files are told: it ends by `Whole` only where all bytes of the file are within the limit, and then just these were
/// taken; by `TooLarge` only where they are more, and then just the bytes up to one past the limit were read; and by `Missing`
/// only where there is no such file. After a fault, or without memory, part of it may have been taken. Where it is told which files were
/// asked for: this one alone, and as far as the answer says.
pub fn read_pieces<F: Files, T: Taker>(
    alloc: Global,
    files: &mut F,
    name: &str,
    limit: u64,
    taker: &mut T,
) -> Ended
    ensures files { SameFiles (F.told files.old) (F.told files.new) }
    ensures ends { FileEnds (F.told files.new) name.now (T.took taker.old) (T.took taker.new) limit result }
    ensures failed { result ≡ Ended.Failed → Rose (F.faults files.old) (F.faults files.new) }
    ensures quiet { IsRead result → F.faults files.new ≡ F.faults files.old }
    ensures never_falls { F.faults files.old ≤ F.faults files.new }
    ensures visited { AddsVisit (F.visits files.old) (F.visits files.new) (VisitEnds name.now limit result) }
{
    match files.open_file(name) {
        Opened::Ready => read_rest(alloc, files, limit, taker),
        Opened::Missing => Ended::Missing,
        Opened::Failed => Ended::Failed,
        Opened::NoMemory => Ended::NoMemory,
    }
}

/// Reads on to the end of the opened file, or to one byte past the limit.
fn read_rest<F: Files, T: Taker>(alloc: Global, files: &mut F, limit: u64, taker: &mut T) -> Ended
    ensures files { SameFiles (F.told files.old) (F.told files.new) }
    ensures ends { RestEnds (F.told files.old) (F.told files.new) (T.took taker.old) (T.took taker.new) limit result }
    ensures failed { result ≡ Ended.Failed → Rose (F.faults files.old) (F.faults files.new) }
    ensures quiet { IsRead result → F.faults files.new ≡ F.faults files.old }
    ensures never_falls { F.faults files.old ≤ F.faults files.new }
    ensures visited { Continues (F.visits files.old) (F.visits files.new) (λ visit last. visit.bytes ≡ 0 → VisitEnds visit.name limit result last) }
{
    let Ok(mut buf) = new_buffer(alloc, PIECE) else {
        return Ended::NoMemory;
    };
    let mut left = limit;
    loop {
        match read_piece(files, buf.as_mut_slice(), left, taker) {
            Got::Bytes(n) if n as u64 <= left => left -= n as u64,
            Got::Bytes(_) => return Ended::TooLarge,
            Got::End => return Ended::Whole,
            Got::Failed => return Ended::Failed,
            Got::NoMemory => return Ended::NoMemory,
        }
    }
}

/// A buffer of this size.
fn new_buffer(alloc: Global, size: usize) -> Result<Vec<u8>, AllocError>
    ensures { IfOk result (λ buf. vec_len buf ≡ size) }
{
    vec![in alloc; 0u8; size]
}

/// Reads one more piece, and hands it on.
fn read_piece<F: Files, T: Taker>(files: &mut F, buf: &mut [u8], allowed: u64, taker: &mut T) -> Got
    requires room { 0 < length buf.old }
    ensures files { SameFiles (F.told files.old) (F.told files.new) }
    ensures gives { PieceGives (F.told files.old) (F.told files.new) (T.took taker.old) (T.took taker.new) allowed result }
    ensures failed { result ≡ Got.Failed → Rose (F.faults files.old) (F.faults files.new) }
    ensures quiet { ReadsOn result → F.faults files.new ≡ F.faults files.old }
    ensures never_falls { F.faults files.old ≤ F.faults files.new }
    ensures visited { Continues (F.visits files.old) (F.visits files.new) (GoesTo allowed result) }
{
    let most = most_wanted(buf.len(), allowed);
    let got = read_front(files, buf, most);
    if let Got::Bytes(n) = got {
        if taker.take_piece(&buf[..n]).is_err() {
            return Got::NoMemory;
        }
    }
    got
}

/// How many bytes to ask for: as many as there is room for, and at most one more than the limit still allows.
fn most_wanted(room: usize, allowed: u64) -> usize
    requires { 0 < room }
    ensures some { 0 < result }
    ensures room { result ≤ room }
    ensures allowed { result ≤ allowed + 1 }
{
    if (room as u64) <= allowed {
        room
    } else {
        allowed as usize + 1
    }
}

/// Reads into the front of a buffer.
fn read_front<F: Files>(files: &mut F, buf: &mut [u8], most: usize) -> Got
    requires some { 0 < most }
    requires room { most ≤ length buf.old }
    ensures files { SameFiles (F.told files.old) (F.told files.new) }
    ensures gives { ReadGives (F.told files.old) (F.told files.new) (take most buf.new) result }
    ensures failed { result ≡ Got.Failed → Rose (F.faults files.old) (F.faults files.new) }
    ensures quiet { ReadsOn result → F.faults files.new ≡ F.faults files.old }
    ensures never_falls { F.faults files.old ≤ F.faults files.new }
    ensures visited { (before : List Visit) (visit : Visit) → F.visits files.old (before ++ visit ∷ []) → F.visits files.new (before ++ read_on visit result ∷ []) }
{
    files.read(&mut buf[..most])
}
