//! What is said of a status.
ghost use Rattle.std.specs.Prelude.{◌≡◌, ◌++◌, IfOk, codes};
ghost use Rattle.std.specs.Fmt.{decimal};
ghost use Rattle.netdb_spec.specs.StatusText.{status_text as text_of, status_words};

use edif_file::fault_text;
use itoa::Buffer;
use netdb_spec::Status;
use netlist_schema::{NoMemory, Text};
use std::alloc::Global;

/// What the program says of a status, behind `netdb: ` and, where the status is about a file, the file's name and `: `. Nothing is said
/// where all is well.
pub fn status_text(alloc: Global, status: &Status) -> Result<Text, NoMemory>
    ensures { IfOk result (λ text. text ≡ text_of status.now) }
{
    match status {
        Status::BadEdif { fault } => fault_text(alloc, fault),
        Status::BadScript { line, .. } => bad_line_text(alloc, *line),
        other => text(alloc, words_of(other)),
    }
}

/// A text of these bytes.
fn text(alloc: Global, bytes: &[u8]) -> Result<Text, NoMemory>
    ensures { IfOk result (λ text. text ≡ bytes.now) }
{
    let mut out = Vec::new(alloc);
    out.extend_from_slice(bytes)?;
    Ok(Text::of(out))
}

/// What is said of a script with a bad line.
fn bad_line_text(alloc: Global, line: u64) -> Result<Text, NoMemory>
    ensures { IfOk result (λ text. text ≡ codes "bad script at line " ++ decimal line) }
{
    let mut out = Vec::new(alloc);
    let mut buffer = Buffer::new();
    out.extend_from_slice(b"bad script at line ")?;
    out.extend_from_slice(buffer.format(line).as_bytes())?;
    Ok(Text::of(out))
}

/// The words of a status that has no number in its text.
fn words_of(status: &Status) -> &'static [u8]
    ensures { result.now ≡ status_words status.now }
{
    match status {
        Status::Ok => b"",
        Status::Usage =>
            b"usage: write F [used], flat F [limit N | workers W], csv F, run F S.., gen N, erc F, uses F S.., check F R S..",
        Status::Missing { .. } => b"missing",
        Status::ReadFault { .. } => b"read fault",
        Status::WriteFault => b"write fault",
        Status::BadEdif { .. } => b"",
        Status::BadScript { .. } => b"",
        Status::TooLarge { .. } => b"too large",
        Status::NoTop => b"no top",
        Status::LogFull => b"log full",
        Status::NoMemory => b"no memory",
    }
}
