//! Words of a line, and what it says.
ghost use Rattle.std.specs.Prelude.{◌≡◌, ◌++◌, ◌<◌, ◌+◌, IfOk, filter, not, OnOk};
ghost use Rattle.std.specs.List.{position};
ghost use Rattle.edif_spelling_spec.specs.Bytes.{is_quote};
ghost use Rattle.edif_spelling_spec.specs.Names.{is_empty};
ghost use Rattle.script_spec.specs.ScriptText.{is_comment, words};
ghost use Rattle.script_words.specs.Reading.{lent};
ghost use Rattle.script_reader.specs.Line.{ReadsLine};

use crate::cut::{blank_parts, trimmed};
use crate::steps::read_step;
use netlist_schema::NoMemory;
use script_spec::Step;
use script_words::Unread;
use std::alloc::Global;

/// The place of the first quote.
fn first_quote(line: &[u8]) -> Option<usize>
    ensures { result ≡ position is_quote line.now }
{
    line.iter().position(|b| *b == b'"')
}

/// Appends the parts that are not empty.
fn push_filled<'a>(parts: &[&'a [u8]], words: &mut Vec<&'a [u8]>) -> Result<(), NoMemory>
    ensures { OnOk result (lent words.new.items ≡ lent words.old.items ++ filter (λ word. not (is_empty word)) (lent parts.now)) }
{
    for part in parts {
        if !part.is_empty() {
            words.push(part)?;
        }
    }
    Ok(())
}

/// The words of a line whose first quote is at this place. From there on it is not cut.
fn words_to_quote(alloc: Global, line: &[u8], quote: usize) -> Result<Vec<&[u8]>, NoMemory>
    requires { position is_quote line.now ≡ Some quote }
    ensures { IfOk result (λ found. lent found.items ≡ words line.now) }
{
    let parts = blank_parts(alloc, &line[..quote])?;
    let mut found = Vec::new(alloc);
    let Some((last, front)) = parts.as_slice().split_last() else {
        return Ok(found);
    };
    push_filled(front, &mut found)?;
    found.push(trimmed(&line[quote - last.len()..]))?;
    Ok(found)
}

/// The words of a line.
fn line_words(alloc: Global, line: &[u8]) -> Result<Vec<&[u8]>, NoMemory>
    ensures { IfOk result (λ found. lent found.items ≡ words line.now) }
{
    match first_quote(line) {
        Some(quote) => words_to_quote(alloc, line, quote),
        None => {
            let parts = blank_parts(alloc, line)?;
            let mut found = Vec::new(alloc);
            push_filled(parts.as_slice(), &mut found)?;
            Ok(found)
        }
    }
}

/// Whether words are none or begin with `#`.
fn is_comment(words: &[&[u8]]) -> bool
    ensures { result ≡ is_comment (lent words.now) }
{
    match words.first() {
        None => true,
        Some(word) => word.first() == Some(&b'#'),
    }
}

/// The step that a line says, or `None` for a comment. `Bad` where it is neither.
pub(crate) fn read_line(alloc: Global, line: &[u8]) -> Result<Option<Step>, Unread>
    ensures { ReadsLine line.now result }
{
    let words = line_words(alloc, line)?;
    if is_comment(words.as_slice()) {
        return Ok(None);
    }
    Ok(Some(read_step(alloc, words.as_slice())?))
}
