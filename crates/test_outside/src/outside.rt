//! Files and sinks, in memory and of the system.
use netdb_outside::{
    BufferedSink, FileRead, Files, FreeGate, Gate, Got, HostFiles, HostOut, MemFiles, MemSink,
    NamedFile, Put, Sink, WriteError, names_differ, read_file, read_retrying,
};
use netlist_schema::{Row, Text};
use std::alloc::{AllocError, Global};
use std::fmt::{Debug, Display};
use std::io::{ErrorKind, Read};
use std::process::Abort;
use std::test::Fail;
use std::{fs, io};

/// An answer is the one that is wanted.
fn same<T: PartialEq + Debug>(rt: &impl Abort, answer: &T, want: &T, row: &str) {
    assert_eq!(rt; answer, want, "{row}");
}

/// So many bytes of one kind.
fn run_of(alloc: Global, byte: u8, count: usize) -> Result<Vec<u8>, AllocError> {
    let mut bytes = Vec::new(alloc);
    for _ in 0..count {
        bytes.push(byte)?;
    }
    Ok(bytes)
}

fn named(alloc: Global, name: &[u8], bytes: Vec<u8>) -> Result<NamedFile, AllocError> {
    Ok(NamedFile {
        name: Text::of(name.to_vec(alloc)?),
        bytes: Text::of(bytes),
    })
}

/// Adds a file of so many bytes.
fn add(
    alloc: Global,
    name: &[u8],
    count: usize,
    files: &mut Vec<NamedFile>,
) -> Result<(), AllocError> {
    let bytes = run_of(alloc, b'x', count)?;
    Ok(files.push(named(alloc, name, bytes)?)?)
}

/// Three files: `short` of five bytes, `empty`, and `long` of 100,000.
fn three_files(alloc: Global) -> Result<Vec<NamedFile>, AllocError> {
    let mut files = Vec::new(alloc);
    add(alloc, b"short", 5, &mut files)?;
    add(alloc, b"empty", 0, &mut files)?;
    add(alloc, b"long", 100_000, &mut files)?;
    Ok(files)
}

/// What reading gives, in words, and the number of bytes.
fn told(contents: &FileRead) -> (&'static str, usize) {
    match contents {
        FileRead::Bytes(text) => ("bytes", text.as_slice().len()),
        FileRead::TooLarge => ("too large", 0),
        FileRead::Missing => ("missing", 0),
        FileRead::Failed => ("failed", 0),
        FileRead::NoMemory => ("no memory", 0),
    }
}

/// A name, a limit, the number of the call that fails, and what reading gives.
type Reading = (&'static str, u64, u64, (&'static str, usize));

static READINGS: [Reading; 14] = [
    ("short", 5, 0, ("bytes", 5)),
    ("short", u64::MAX, 0, ("bytes", 5)),
    ("short", 4, 0, ("too large", 0)),
    ("short", 0, 0, ("too large", 0)),
    ("empty", 0, 0, ("bytes", 0)),
    ("nowhere", 5, 0, ("missing", 0)),
    ("long", 100_000, 0, ("bytes", 100_000)),
    ("long", 99_999, 0, ("too large", 0)),
    ("short", 5, 1, ("failed", 0)),
    ("short", 5, 2, ("failed", 0)),
    ("short", 5, 3, ("failed", 0)),
    ("short", 5, 4, ("bytes", 5)),
    ("short", 4, 3, ("too large", 0)),
    ("long", 100_000, 3, ("failed", 0)),
];

/// Checks what reading a file within a limit gives.
fn reads<F: Files>(
    rt: &impl Abort,
    alloc: Global,
    files: &mut F,
    name: &str,
    limit: u64,
    want: (&'static str, usize),
) {
    let contents = read_file(alloc, files, name, limit);
    same(rt, &told(&contents), &want, name);
}

/// Files of different names.
fn in_memory(rt: &impl Abort, files: Vec<NamedFile>, failing: Vec<u64>) -> MemFiles {
    assert!(rt; names_differ(&files));
    MemFiles::new(Row::of(files), Row::of(failing))
}

/// The three files, of whose calls one fails.
fn failing_files(rt: &impl Abort, alloc: Global, failing: u64) -> Result<MemFiles, Fail> {
    let failing = vec![in alloc; failing]?;
    let files = three_files(alloc)?;
    Ok(in_memory(rt, files, failing))
}

/// Checks what reading one of the three files gives.
fn memory_reads(rt: &impl Abort, alloc: Global, reading: &Reading) -> Result<(), Fail> {
    let (name, limit, failing, want) = *reading;
    let mut files = failing_files(rt, alloc, failing)?;
    reads(rt, alloc, &mut files, name, limit, want);
    Ok(())
}

#[test]
fn files_in_memory_are_read_within_a_limit(rt: HostRuntime) -> Result<(), Fail> {
    for reading in &READINGS {
        memory_reads(&rt, rt.alloc(), reading)?;
    }
    Ok(())
}

/// What a sink in memory answers to a second piece, and what it holds then.
fn second_put(rt: &impl Abort, sink: &mut MemSink, want: (Put, &[u8])) {
    let first = sink.put(b"ab");
    let second = sink.put(b"cd");
    same(rt, &(first, second), &(Put::Put, want.0), "two pieces");
    assert!(rt; sink.written() == want.1);
}

/// The length of a sink, what it answers to the second piece, and what it holds then.
static PUTS: [(Option<u64>, Put, &[u8]); 3] = [
    (None, Put::Put, b"abcd"),
    (Some(4), Put::Put, b"abcd"),
    (Some(3), Put::Failed, b"abc"),
];

/// The number of bytes that were written before the end of a buffer and after it, and the answer.
type Buffered = (usize, usize, Result<(), WriteError>);

/// Puts two pieces into a buffer.
fn buffer_two(mut buffer: BufferedSink, sink: &mut MemSink, second: &[u8]) -> Buffered {
    buffer.put(b"ab", sink);
    buffer.put(second, sink);
    let before = sink.written().len();
    let answer = buffer.finish(sink);
    (before, sink.written().len(), answer)
}

/// What bytes in two pieces give, by way of a buffer, in a sink of this length.
fn buffered(alloc: Global, length: Option<u64>, count: usize) -> Result<Buffered, AllocError> {
    let second = run_of(alloc, b'x', count)?;
    let mut sink = MemSink::new(alloc, length);
    Ok(buffer_two(BufferedSink::new(alloc), &mut sink, &second))
}

/// The length of a sink, the number of bytes of the second piece, and what comes of the two in a buffer.
static BUFFERED: [(Option<u64>, usize, Buffered); 7] = [
    (None, 10, (0, 12, Ok(()))),
    (None, 10_000, (0, 10_002, Ok(()))),
    (None, 32_766, (32_768, 32_768, Ok(()))),
    (None, 100_000, (100_002, 100_002, Ok(()))),
    (Some(5), 10, (0, 5, Err(WriteError::WriteFault))),
    (Some(1), 100_000, (1, 1, Err(WriteError::WriteFault))),
    (Some(5), 100_000, (5, 5, Err(WriteError::WriteFault))),
];

#[test]
fn a_sink_in_memory_holds_at_most_its_length(rt: HostRuntime) {
    for (length, put, held) in &PUTS {
        second_put(&rt, &mut MemSink::new(rt.alloc(), *length), (*put, held));
    }
}

#[test]
fn a_buffer_is_written_when_it_is_full_and_at_its_end(rt: HostRuntime) -> Result<(), Fail> {
    for (length, count, want) in &BUFFERED {
        let buffered = buffered(rt.alloc(), *length, *count)?;
        same(&rt, &buffered, want, "two pieces");
    }
    Ok(())
}

/// A file whose first reads are interrupted.
#[derive(Drop)]
struct Interrupted {
    times: u32,
}

impl Read for Interrupted {
    fn read(&mut self, buf: &mut [u8]) -> io::Result<usize> {
        if self.times > 0 {
            self.times -= 1;
            return Err(io::Error::from(ErrorKind::Interrupted));
        }
        Ok(buf.len())
    }
}

const LINES: &[u8] = b"one\ntwo\nthree\n";

/// A name, a limit, and what reading gives.
static OF_SYSTEM: [(&str, u64, (&str, usize)); 4] = [
    ("three_lines.txt", 14, ("bytes", 14)),
    ("three_lines.txt", 13, ("too large", 0)),
    (".", 20, ("failed", 0)),
    ("nowhere.txt", 20, ("missing", 0)),
];

fn are_lines(contents: &FileRead) -> bool {
    match contents {
        FileRead::Bytes(text) => text.as_slice() == LINES,
        _ => false,
    }
}

/// Reads a file that has the lines, and others.
fn system_reads<F: Files>(rt: &impl Abort, alloc: Global, files: &mut F) {
    let are_lines = are_lines(&read_file(alloc, files, "three_lines.txt", 20));
    assert!(rt; are_lines);
    for (name, limit, want) in &OF_SYSTEM {
        reads(rt, alloc, files, name, *limit, *want);
    }
    assert_eq!(rt; files.read(&mut [0; 4]), Got::End);
}

#[test]
fn files_of_the_system_are_read(rt: HostRuntime) -> Result<(), Fail> {
    fs::write(&rt, "three_lines.txt", LINES)?;
    system_reads(&rt, rt.alloc(), &mut HostFiles::new(&rt));
    fs::remove_file(&rt, "three_lines.txt")?;
    let mut file = Interrupted { times: 3 };
    assert_eq!(rt; read_retrying(&mut file, &mut [0; 4])?, 4);
    Ok(())
}

/// A system whose output takes one piece alone, and gives this error to each other.
#[derive(Drop)]
struct Expecting<'a> {
    piece: &'a [u8],
    error: ErrorKind,
}

impl<'a> Print for Expecting<'a> {
    fn print<D: Display + Drop>(&self, _value: D) -> io::Result<()> {
        Err(io::Error::from(self.error))
    }

    fn println<D: Display + Drop>(&self, _value: D) -> io::Result<()> {
        Err(io::Error::from(self.error))
    }

    fn write_all(&self, bytes: &[u8]) -> io::Result<()> {
        if bytes == self.piece {
            return Ok(());
        }
        Err(io::Error::from(self.error))
    }
}

/// What the output of such a system answers to the piece, and to another one.
fn two_puts(error: ErrorKind) -> (Put, Put) {
    let piece = b"one piece";
    let mut out = HostOut::new(Expecting { piece, error });
    (out.put(piece), out.put(b"another"))
}

#[test]
fn the_standard_output_is_given_each_piece(rt: HostRuntime) {
    let mut out = HostOut::new(&rt);
    let put = out.put(b"one piece, and a line feed\n");
    let failed = two_puts(ErrorKind::BrokenPipe);
    let refused = two_puts(ErrorKind::OutOfMemory);
    same(&rt, &put, &Put::Put, "one piece");
    same(&rt, &failed, &(Put::Put, Put::Failed), "a broken pipe");
    same(&rt, &refused, &(Put::Put, Put::NoMemory), "no memory");
    FreeGate.reached(0, 1);
}
