//! `MemFiles`: files in memory.
ghost use Rattle.std.specs.Prelude.{◌≡◌, ◌≢◌, ◌⊎◌, ◌≤◌, ◌<◌, ◌↔◌, List, [], ◌∷◌, length, min, take, drop, ◌++◌, Some, None, Any, IsTrue, MatchOption};
ghost use Rattle.netlist_schema.specs.Names.{AreDistinct};
ghost use Rattle.netdb_outside.specs.MemFiles.{Leads, after_call, bytes_at, named, names, next_fails, opened_rest, opening, read_buffer, read_rest, reading};
ghost use Rattle.netdb_outside.specs.Outside.{NothingLeft, Rose, SameFiles, file_named};
ghost use Rattle.netdb_outside.specs.Reading.{ReadGives, ReadsOn};
ghost use Rattle.netdb_outside.specs.Visits.{Visit, begun, read_on};

use crate::files::{Files, Got, Opened};
use netlist_schema::{Row, Text};
use std::marker::Model;

/// A file in memory.
#[derive(Debug, Drop)]
pub struct NamedFile {
    pub name: Text,
    pub bytes: Text,
}

/// A place in a file: the index of the file, and how many of its bytes were read.
#[derive(Clone, Copy, Debug)]
struct Place {
    file: usize,
    at: usize,
}

/// Files in memory. It tells them, and which were asked for as far as what it keeps shows that: its files, the calls that fail, how many
/// calls there were and how many failed, and the rest. Calls of `open_file` and `read` are counted together from 1, and those whose numbers
/// are listed fail; no other does. It never answers `NoMemory`.
#[derive(Debug, Drop)]
pub struct MemFiles {
    files: Row<NamedFile>,
    failing: Row<u64>,
    place: Option<Place>,
    calls: u64,
    faults: u64,
}

impl Model for MemFiles {
    ghost use Rattle.netdb_outside.specs.MemFiles.{FilesFacts};

    ghost Value = { FilesFacts };

    ghost use Rattle.netdb_outside.specs.MemFiles.{named, rest_from, IsPlaced};

    ghost view = { λ m. record { folder = record { files = named m.files; rest = rest_from m.files m.place }; failing = m.failing; calls = m.calls; faults = m.faults } };

    ghost invariant = { λ m. IsPlaced m.files m.place };
}

impl MemFiles {
    /// Files whose names differ, as `names_differ` tells, none of them opened, and the numbers of the calls that fail. Takes
    /// no memory.
    pub fn new(files: Row<NamedFile>, failing: Row<u64>) -> MemFiles
        requires { AreDistinct (names files) }
        ensures { result ≡ record { folder = record { files = named files; rest = [] }; failing = failing; calls = 0; faults = 0 } }
    {
        MemFiles {
            files,
            failing,
            place: None,
            calls: 0,
            faults: 0,
        }
    }

    /// Counts a call, and says whether it fails.
    fn count_call(&mut self) -> bool
        ensures fails { result ≡ next_fails self.old }
        ensures after { self.new ≡ after_call self.old self.old.folder.rest }
        ensures never_falls { self.old.faults ≤ self.new.faults }
    {
        self.calls = self.calls.saturating_add(1);
        let fails = self.failing.as_slice().contains(&self.calls);
        if fails {
            self.faults = self.faults.saturating_add(1);
        }
        fails
    }

    /// Copies as much as fits of what is left to the front of a buffer, and says how many bytes that were.
    fn copy_next(&mut self, buf: &mut [u8]) -> usize
        ensures count { result ≡ min (length self.old.folder.rest) (length buf.old) }
        ensures copied { buf.new ≡ take (length buf.old) self.old.folder.rest ++ drop (length self.old.folder.rest) buf.old }
        ensures after { self.new ≡ record self.old { folder = record { files = self.old.folder.files; rest = drop (length buf.old) self.old.folder.rest } } }
    {
        let Some(place) = self.place else {
            return 0;
        };
        let bytes = file_bytes(self.files.as_slice(), place.file);
        let count = copy_front(&bytes[place.at..], buf);
        self.place = Some(Place {
            file: place.file,
            at: place.at + count,
        });
        count
    }
}

impl MemFiles {
    /// Opens a file, as `open_file` does.
    fn open_named(&mut self, name: &str) -> Opened
        ensures files { SameFiles (Some self.old.folder) (Some self.new.folder) }
        ensures ready { result ≡ Opened.Ready → file_named self.new.folder.files name.now ≡ Some self.new.folder.rest }
        ensures missing { result ≡ Opened.Missing → file_named self.new.folder.files name.now ≡ None }
        ensures others { result ≢ Opened.Ready → NothingLeft (Some self.new.folder) }
        ensures failed { result ≡ Opened.Failed → Rose self.old.faults self.new.faults }
        ensures quiet { (result ≡ Opened.Ready) ⊎ (result ≡ Opened.Missing) → self.new.faults ≡ self.old.faults }
        ensures never_falls { self.old.faults ≤ self.new.faults }
        ensures answer { result ≡ opening (next_fails self.old) (file_named self.old.folder.files name.now) }
        ensures after { self.new ≡ after_call self.old (opened_rest (next_fails self.old) (file_named self.old.folder.files name.now)) }
    {
        let fails = self.count_call();
        self.place = None;
        if fails {
            return Opened::Failed;
        }
        match find(self.files.as_slice(), name.as_bytes()) {
            Some(file) => {
                self.place = Some(Place { file, at: 0 });
                Opened::Ready
            }
            None => Opened::Missing,
        }
    }

    /// Reads on, as `read` does.
    fn read_next(&mut self, buf: &mut [u8]) -> Got
        requires { 0 < length buf.old }
        ensures files { SameFiles (Some self.old.folder) (Some self.new.folder) }
        ensures gives { ReadGives (Some self.old.folder) (Some self.new.folder) buf.new result }
        ensures failed { result ≡ Got.Failed → Rose self.old.faults self.new.faults }
        ensures quiet { ReadsOn result → self.new.faults ≡ self.old.faults }
        ensures never_falls { self.old.faults ≤ self.new.faults }
        ensures answer { result ≡ reading (next_fails self.old) self.old.folder.rest (length buf.old) }
        ensures after { self.new ≡ after_call self.old (read_rest (next_fails self.old) self.old.folder.rest (length buf.old)) }
        ensures buffer { buf.new ≡ read_buffer (next_fails self.old) self.old.folder.rest buf.old }
    {
        if self.count_call() {
            return Got::Failed;
        }
        match self.copy_next(buf) {
            0 => Got::End,
            count => Got::Bytes(count),
        }
    }
}

impl Files for MemFiles {
    ghost told = { λ m. Some m.folder };

    ghost faults = { λ m. m.faults };

    ghost visits = { λ m visits. Leads visits m };

    fn open_file(&mut self, name: &str) -> Opened
        ensures files { SameFiles (Some self.old.folder) (Some self.new.folder) }
        ensures ready { result ≡ Opened.Ready → file_named self.new.folder.files name.now ≡ Some self.new.folder.rest }
        ensures missing { result ≡ Opened.Missing → file_named self.new.folder.files name.now ≡ None }
        ensures others { result ≢ Opened.Ready → NothingLeft (Some self.new.folder) }
        ensures failed { result ≡ Opened.Failed → Rose self.old.faults self.new.faults }
        ensures quiet { (result ≡ Opened.Ready) ⊎ (result ≡ Opened.Missing) → self.new.faults ≡ self.old.faults }
        ensures never_falls { self.old.faults ≤ self.new.faults }
        ensures answer { result ≡ opening (next_fails self.old) (file_named self.old.folder.files name.now) }
        ensures after { self.new ≡ after_call self.old (opened_rest (next_fails self.old) (file_named self.old.folder.files name.now)) }
        ensures visited { (before : List Visit) → Leads before self.old → Leads (before ++ begun name.now result ∷ []) self.new }
    {
        self.open_named(name)
    }

    fn read(&mut self, buf: &mut [u8]) -> Got
        requires { 0 < length buf.old }
        ensures files { SameFiles (Some self.old.folder) (Some self.new.folder) }
        ensures gives { ReadGives (Some self.old.folder) (Some self.new.folder) buf.new result }
        ensures failed { result ≡ Got.Failed → Rose self.old.faults self.new.faults }
        ensures quiet { ReadsOn result → self.new.faults ≡ self.old.faults }
        ensures never_falls { self.old.faults ≤ self.new.faults }
        ensures answer { result ≡ reading (next_fails self.old) self.old.folder.rest (length buf.old) }
        ensures after { self.new ≡ after_call self.old (read_rest (next_fails self.old) self.old.folder.rest (length buf.old)) }
        ensures buffer { buf.new ≡ read_buffer (next_fails self.old) self.old.folder.rest buf.old }
        ensures visited { (before : List Visit) (visit : Visit) → Leads (before ++ visit ∷ []) self.old → Leads (before ++ read_on visit result ∷ []) self.new }
    {
        self.read_next(buf)
    }
}

/// Whether no two files have the same name. Takes no memory.
pub fn names_differ(files: &[NamedFile]) -> bool
    ensures { IsTrue result ↔ AreDistinct (names files.now) }
{
    for (i, file) in files.iter().enumerate() {
        if has_name(&files[..i], file.name.as_slice()) {
            return false;
        }
    }
    true
}

/// Whether there is a file of this name.
fn has_name(files: &[NamedFile], name: &[u8]) -> bool
    ensures { IsTrue result ↔ Any (λ file. file.name ≡ name.now) files.now }
{
    files.iter().any(|file| file.name.as_slice() == name)
}

/// The index of the first file of this name.
#[tactic(auto, using(crate::proofs::FileNames::name_found, crate::proofs::FileNames::name_passed))]
fn find(files: &[NamedFile], name: &[u8]) -> Option<usize>
    ensures { MatchOption result (file_named (named files.now) name.now ≡ None) (λ i. file_named (named files.now) name.now ≡ Some (bytes_at files.now i)) }
{
    for (i, file) in files.iter().enumerate() {
        if file.name.as_slice() == name {
            return Some(i);
        }
    }
    None
}

/// The bytes of the file at this index, none where there is no such file.
fn file_bytes(files: &[NamedFile], index: usize) -> &[u8]
    ensures { result.now ≡ bytes_at files.now index }
{
    match files.get(index) {
        Some(file) => file.bytes.as_slice(),
        None => &[],
    }
}

/// Copies as much as fits of a text to the front of a buffer, and says how many bytes that were.
fn copy_front(text: &[u8], buf: &mut [u8]) -> usize
    ensures count { result ≡ min (length text.now) (length buf.old) }
    ensures copied { buf.new ≡ take (length buf.old) text.now ++ drop (length text.now) buf.old }
{
    let count = text.len().min(buf.len());
    buf[..count].copy_from_slice(&text[..count]);
    count
}
