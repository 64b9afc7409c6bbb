//! A text cut into lines, and a line into parts.
ghost use Rattle.std.specs.Prelude.{◌≡◌, ◌++◌, map, IfOk, OnOk};
ghost use Rattle.std.specs.List.{slice_split};
ghost use Rattle.script_reader.specs.Parts.{last_line};
ghost use Rattle.script_spec.specs.ScriptText.{is_blank, is_line_feed, lines_of, trimmed, without_return};

use netlist_schema::NoMemory;
use std::alloc::{AllocError, Global};

/// Whether a byte ends a line.
fn is_line_feed(byte: u8) -> bool
    ensures { result ≡ is_line_feed byte }
{
    byte == b'\n'
}

/// Whether a byte separates words.
fn is_blank(byte: u8) -> bool
    ensures { result ≡ is_blank byte }
{
    byte == b' ' || byte == b'\t'
}

/// The parts of a text between line feeds.
fn line_parts(alloc: Global, text: &[u8]) -> Result<Vec<&[u8]>, AllocError>
    ensures { IfOk result (λ parts. map (λ x. x.now) parts.items ≡ slice_split is_line_feed text.now) }
{
    text.split(|b| is_line_feed(*b)).collect(alloc)
}

/// The parts of a line between blanks.
pub(crate) fn blank_parts(alloc: Global, line: &[u8]) -> Result<Vec<&[u8]>, AllocError>
    ensures { IfOk result (λ parts. map (λ x. x.now) parts.items ≡ slice_split is_blank line.now) }
{
    line.split(|b| is_blank(*b)).collect(alloc)
}

/// A line without a carriage return at its end.
fn without_return(line: &[u8]) -> &[u8]
    ensures { result.now ≡ without_return line.now }
{
    match line.split_last() {
        None => line,
        Some((last, front)) => { if *last == b'\r' { front } else { line } }
    }
}

/// Appends these parts as lines, each without a carriage return at its end.
fn push_lines<'a>(parts: &[&'a [u8]], lines: &mut Vec<&'a [u8]>) -> Result<(), NoMemory>
    ensures { OnOk result (map (λ x. x.now) lines.new.items ≡ map (λ x. x.now) lines.old.items ++ map without_return (map (λ x. x.now) parts.now)) }
{
    for part in parts {
        lines.push(without_return(part))?;
    }
    Ok(())
}

/// Appends the part behind the last line feed as a line, where it has bytes.
fn push_last<'a>(part: &'a [u8], lines: &mut Vec<&'a [u8]>) -> Result<(), NoMemory>
    ensures { OnOk result (map (λ x. x.now) lines.new.items ≡ map (λ x. x.now) lines.old.items ++ last_line part.now) }
{
    if part.is_empty() {
        return Ok(());
    }
    lines.push(part)?;
    Ok(())
}

/// The lines of a text: they end with a line feed, which the last may lack, and a carriage return before it is dropped.
pub(crate) fn cut_lines(alloc: Global, text: &[u8]) -> Result<Vec<&[u8]>, NoMemory>
    ensures { IfOk result (λ lines. map (λ x. x.now) lines.items ≡ lines_of text.now) }
{
    let parts = line_parts(alloc, text)?;
    let mut lines = Vec::new(alloc);
    let Some((last, front)) = parts.as_slice().split_last() else {
        return Ok(lines);
    };
    push_lines(front, &mut lines)?;
    push_last(last, &mut lines)?;
    Ok(lines)
}

/// The bytes without the blanks at their end.
pub(crate) fn trimmed(bytes: &[u8]) -> &[u8]
    ensures { result.now ≡ trimmed bytes.now }
{
    let mut left = bytes;
    while let Some((last, front)) = left.split_last() {
        if !is_blank(*last) {
            return left;
        }
        left = front;
    }
    left
}
