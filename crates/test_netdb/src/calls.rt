//! Calls of the program over files and a sink in memory, and what is wanted of them.
use netdb_cli::{EdifFault, Status, fault_text, run_netdb};
use netdb_outside::{FreeGate, Gate, MemFiles, MemSink, NamedFile, names_differ};
use netlist_schema::{Row, Text};
use std::alloc::{AllocError, Global};
use std::process::Abort;
use std::sync::Wait;
use std::test::Fail;
use std::thread::Threads;

/// A file's name, and the pieces of its text.
pub type File<'a> = (&'a str, &'a [&'a str]);

/// What is wanted of the bytes that are written.
#[derive(Clone, Copy)]
pub enum Writes<'a> {
    /// They are these pieces, one behind another.
    All(&'a [&'a str]),
    /// They are so much of this text as the sink takes.
    Front(&'a str),
    /// They have each of these pieces.
    Each(&'a [&'a str]),
}

/// A call, and what is wanted of it.
#[derive(Clone, Copy)]
pub struct Case<'a> {
    pub files: &'a [File<'a>],
    pub words: &'a [&'a str],
    /// The calls of the files that fail.
    pub failing: &'a [u64],
    /// How many bytes the sink takes.
    pub length: Option<u64>,
    /// The status, as `shown` has it: one of these.
    pub ends: &'a [&'a str],
    pub writes: Writes<'a>,
}

/// Nothing is written.
pub const NOTHING: Writes<'static> = Writes::All(&[]);

/// Whatever is written.
pub const ANYTHING: Writes<'static> = Writes::Each(&[]);

/// All goes well.
pub const OK: &[&str] = &["0 Ok"];

/// The words are no command.
pub const USAGE: &[&str] = &["2 Usage"];

/// There is no top.
pub const NO_TOP: &[&str] = &["9 NoTop"];

/// The words that write F.
pub const WRITE_F: [&str; 2] = ["write", "F"];

/// The words that run S on F.
pub const RUN: [&str; 3] = ["run", "F", "S"];

/// `write F` without a file, on a sink that takes all.
pub const WRITE: Case<'static> = Case {
    files: &[],
    words: &WRITE_F,
    failing: &[],
    length: None,
    ends: OK,
    writes: NOTHING,
};

/// The pieces, one behind another.
fn text(alloc: Global, pieces: &[&str]) -> Result<Text, AllocError> {
    let mut bytes = Vec::new(alloc);
    for piece in pieces {
        bytes.extend_from_slice(piece.as_bytes())?;
    }
    Ok(Text::of(bytes))
}

fn named(alloc: Global, file: &File) -> Result<NamedFile, AllocError> {
    let name = text(alloc, &[file.0])?;
    let bytes = text(alloc, file.1)?;
    Ok(NamedFile { name, bytes })
}

fn add_file(alloc: Global, file: &File, files: &mut Vec<NamedFile>) -> Result<(), AllocError> {
    let made = named(alloc, file)?;
    Ok(files.push(made)?)
}

fn files_of(alloc: Global, files: &[File]) -> Result<Vec<NamedFile>, AllocError> {
    let mut made = Vec::new(alloc);
    for file in files {
        add_file(alloc, file, &mut made)?;
    }
    Ok(made)
}

/// Files of different names.
fn shelf(rt: &impl Abort, files: Vec<NamedFile>, failing: Vec<u64>) -> MemFiles {
    assert!(rt; names_differ(&files));
    MemFiles::new(Row::of(files), Row::of(failing))
}

fn files(rt: &impl Abort, alloc: Global, case: &Case) -> Result<MemFiles, Fail> {
    let failing = case.failing.to_vec(alloc)?;
    let files = files_of(alloc, case.files)?;
    Ok(shelf(rt, files, failing))
}

fn add_word(alloc: Global, word: &str, words: &mut Vec<String>) -> Result<(), AllocError> {
    let word = String::from_str(alloc, word)?;
    Ok(words.push(word)?)
}

fn words(alloc: Global, words: &[&str]) -> Result<Vec<String>, AllocError> {
    let mut made = Vec::new(alloc);
    for word in words {
        add_word(alloc, word, &mut made)?;
    }
    Ok(made)
}

fn shown_fault(alloc: Global, number: u8, fault: &EdifFault) -> Result<String, Fail> {
    let text = fault_text(alloc, fault)?;
    let text = String::from_utf8_lossy(alloc, text.as_slice())?;
    Ok(format!(in alloc; "{number} {text}")?)
}

/// The number of a status, and behind it the text of its fault, or the status as it stands in the code.
fn shown(alloc: Global, status: &Status) -> Result<String, Fail> {
    let number = status.number();
    match status {
        Status::BadEdif { fault } => shown_fault(alloc, number, fault),
        other => Ok(format!(in alloc; "{number} {other:?}")?),
    }
}

fn is_one_of(shown: &str, texts: &[&str]) -> bool {
    for text in texts {
        if shown == *text {
            return true;
        }
    }
    false
}

/// Whether these are the pieces, one behind another.
fn is_all(written: &[u8], pieces: &[&str]) -> bool {
    let mut rest = written;
    for piece in pieces {
        match rest.strip_prefix(piece.as_bytes()) {
            Some(behind) => rest = behind,
            None => return false,
        }
    }
    rest.is_empty()
}

/// Whether a piece, which is not empty, is somewhere in what was written.
fn has(written: &[u8], piece: &str) -> bool {
    !piece.is_empty()
        && written
            .windows(piece.len())
            .any(|part| part == piece.as_bytes())
}

fn has_all(written: &[u8], pieces: &[&str]) -> bool {
    for piece in pieces {
        if !has(written, piece) {
            return false;
        }
    }
    true
}

fn is_written(written: &[u8], case: &Case) -> bool {
    match case.writes {
        Writes::All(pieces) => is_all(written, pieces),
        Writes::Front(text) => {
            text.as_bytes().starts_with(written) && case.length == Some(written.len() as u64)
        }
        Writes::Each(pieces) => has_all(written, pieces),
    }
}

/// The last piece of the first file.
fn piece_of<'a>(files: &'a [File<'a>]) -> Option<&'a &'a str> {
    files.first()?.1.last()
}

/// Compares a status as it is shown, and what was written.
fn compare(rt: &impl Abort, case: &Case, shown: &str, written: &[u8]) {
    let (ends, writes) = (is_one_of(shown, case.ends), is_written(written, case));
    let (words, piece) = (case.words, piece_of(case.files));
    assert!(rt;
        ends && writes,
        "{words:?} {piece:?} give {shown}, {written:?}"
    );
}

/// Compares what came of a call.
fn compare_status(
    rt: &impl Abort,
    alloc: Global,
    case: &Case,
    status: &Status,
    written: &[u8],
) -> Result<(), Fail> {
    let shown = shown(alloc, status)?;
    compare(rt, case, &shown, written);
    Ok(())
}

/// Calls the program, and compares what came of it.
fn call<R: Abort + Threads + Wait + Sync, G: Gate + Sync>(
    rt: &R,
    alloc: Global,
    gate: &G,
    case: &Case,
    words: &[String],
    files: &mut MemFiles,
) -> Result<(), Fail> {
    let mut out = MemSink::new(alloc, case.length);
    let status = run_netdb(rt, alloc, words, files, &mut out, gate);
    compare_status(rt, alloc, case, &status, out.written())
}

/// Calls the program with a gate, and compares what came of it.
pub fn check_at<R: Abort + Threads + Wait + Sync, G: Gate + Sync>(
    rt: &R,
    alloc: Global,
    gate: &G,
    case: &Case,
) -> Result<(), Fail> {
    let words = words(alloc, case.words)?;
    let mut files = files(rt, alloc, case)?;
    call(rt, alloc, gate, case, &words, &mut files)
}

/// Calls the program with a gate at which nobody waits, and compares what came of it.
pub fn check<R: Abort + Threads + Wait + Sync>(
    rt: &R,
    alloc: Global,
    case: &Case,
) -> Result<(), Fail> {
    check_at(rt, alloc, &FreeGate, case)
}

/// Checks a call on these files.
pub fn check_files<'a, R: Abort + Threads + Wait + Sync>(
    rt: &R,
    alloc: Global,
    files: &'a [File<'a>],
    words: &'a [&'a str],
    ends: &'a [&'a str],
    writes: Writes<'a>,
) -> Result<(), Fail> {
    let case = Case {
        files,
        words,
        ends,
        writes,
        ..WRITE
    };
    check(rt, alloc, &case)
}

/// Checks a call on a file F.
pub fn check_file<'a, R: Abort + Threads + Wait + Sync>(
    rt: &R,
    alloc: Global,
    file: &'a [&'a str],
    words: &'a [&'a str],
    ends: &'a [&'a str],
    writes: Writes<'a>,
) -> Result<(), Fail> {
    let files = [("F", file)];
    check_files(rt, alloc, &files, words, ends, writes)
}

/// Checks a run of a script on a design.
pub fn check_run<'a, R: Abort + Threads + Wait + Sync>(
    rt: &R,
    alloc: Global,
    design: &'a [&'a str],
    script: &'a [&'a str],
    ends: &'a [&'a str],
    writes: Writes<'a>,
) -> Result<(), Fail> {
    let files = [("F", design), ("S", script)];
    check_files(rt, alloc, &files, &RUN, ends, writes)
}
