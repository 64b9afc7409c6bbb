//! A system with one file, whose opening is refused or whose reading fails.
use netdb_outside::{FileRead, Files, HostFiles, read_file};
use std::alloc::{Allocator, Global};
use std::fs::{Metadata, OpenFile, OpenOptions};
use std::io::{ErrorKind, Read, Seek, SeekFrom, Write};
use std::process::Abort;
use std::{io, rt};

/// The file of such a system: so many bytes are left, and then reading fails, or the file ends.
#[derive(Drop)]
struct FakeFile {
    left: usize,
    then: Option<ErrorKind>,
}

fn unsupported() -> io::Error {
    io::Error::from(ErrorKind::Unsupported)
}

impl Read for FakeFile {
    fn read(&mut self, buf: &mut [u8]) -> io::Result<usize> {
        if self.left == 0 {
            return match self.then {
                Some(kind) => Err(io::Error::from(kind)),
                None => Ok(0),
            };
        }
        let count = self.left.min(buf.len());
        self.left -= count;
        Ok(count)
    }
}

impl Write for FakeFile {
    fn write(&mut self, _buf: &[u8]) -> io::Result<usize> {
        Err(unsupported())
    }

    fn flush(&mut self) -> io::Result<()> {
        Err(unsupported())
    }
}

impl Seek for FakeFile {
    fn seek(&mut self, _to: SeekFrom) -> io::Result<u64> {
        Err(unsupported())
    }
}

impl OpenFile for FakeFile {
    fn metadata(&self) -> io::Result<Metadata> {
        Err(unsupported())
    }

    fn set_len(&self, _size: u64) -> io::Result<()> {
        Err(unsupported())
    }

    fn sync_all(&self) -> io::Result<()> {
        Err(unsupported())
    }

    fn sync_data(&self) -> io::Result<()> {
        Err(unsupported())
    }
}

/// A system that refuses an opening with this error, or opens a file of so many bytes whose reading then fails with that one.
#[derive(Clone, Copy)]
struct FakeSystem {
    opening: Option<ErrorKind>,
    bytes: usize,
    reading: Option<ErrorKind>,
}

impl rt::Files for FakeSystem {
    type File = FakeFile;

    type Dir = FakeFile;

    fn open_file(&self, _how: &OpenOptions, _path: &str) -> io::Result<FakeFile> {
        match self.opening {
            Some(kind) => Err(io::Error::from(kind)),
            None => Ok(FakeFile {
                left: self.bytes,
                then: self.reading,
            }),
        }
    }

    fn open_dir(&self, _path: &str) -> io::Result<FakeFile> {
        Err(unsupported())
    }

    fn metadata(&self, _path: &str) -> io::Result<Metadata> {
        Err(unsupported())
    }

    fn symlink_metadata(&self, _path: &str) -> io::Result<Metadata> {
        Err(unsupported())
    }

    fn copy(&self, _from: &str, _to: &str) -> io::Result<u64> {
        Err(unsupported())
    }

    fn rename(&self, _from: &str, _to: &str) -> io::Result<()> {
        Err(unsupported())
    }

    fn remove_file(&self, _path: &str) -> io::Result<()> {
        Err(unsupported())
    }

    fn create_dir(&self, _path: &str) -> io::Result<()> {
        Err(unsupported())
    }

    fn remove_dir(&self, _path: &str) -> io::Result<()> {
        Err(unsupported())
    }

    fn remove_dir_all<B: Allocator>(&self, _alloc: B, _path: &str) -> io::Result<()> {
        Err(unsupported())
    }
}

/// What reading gives, in words, and the number of bytes.
fn told(contents: &FileRead) -> (&'static str, usize) {
    match contents {
        FileRead::Bytes(text) => ("bytes", text.as_slice().len()),
        FileRead::TooLarge => ("too large", 0),
        FileRead::Missing => ("missing", 0),
        FileRead::Failed => ("failed", 0),
        FileRead::NoMemory => ("no memory", 0),
    }
}

/// How an opening is refused, the number of bytes, how the reading fails behind them, and what reading within 200,000 bytes gives.
type Faking = (
    Option<ErrorKind>,
    usize,
    Option<ErrorKind>,
    (&'static str, usize),
);

static FAKING: [Faking; 12] = [
    (Some(ErrorKind::NotFound), 0, None, ("missing", 0)),
    (Some(ErrorKind::PermissionDenied), 0, None, ("failed", 0)),
    (Some(ErrorKind::Other), 0, None, ("failed", 0)),
    (Some(ErrorKind::Interrupted), 0, None, ("failed", 0)),
    (Some(ErrorKind::OutOfMemory), 0, None, ("no memory", 0)),
    (None, 0, None, ("bytes", 0)),
    (None, 100_000, None, ("bytes", 100_000)),
    (None, 200_001, Some(ErrorKind::Other), ("too large", 0)),
    (None, 0, Some(ErrorKind::Other), ("failed", 0)),
    (None, 100_000, Some(ErrorKind::Other), ("failed", 0)),
    (None, 100_000, Some(ErrorKind::Interrupted), ("failed", 0)),
    (
        None,
        100_000,
        Some(ErrorKind::OutOfMemory),
        ("no memory", 0),
    ),
];

/// Checks what reading the file of such a system gives.
fn gives<F: Files>(rt: &impl Abort, alloc: Global, files: &mut F, faking: &Faking) {
    let contents = read_file(alloc, files, "file", 200_000);
    assert!(rt; told(&contents) == faking.3, "{faking:?}");
}

#[test]
fn each_fault_of_the_system_is_told(rt: HostRuntime) {
    for faking in &FAKING {
        let system = FakeSystem {
            opening: faking.0,
            bytes: faking.1,
            reading: faking.2,
        };
        gives(&rt, rt.alloc(), &mut HostFiles::new(system), faking);
    }
}
