//! What stands behind the events of a report: the transcripts, and the last version.
ghost use Rattle.std.specs.Prelude.{◌≡◌, ◌↔◌, ◌∷◌, ◌++◌, [], IfOk, IsTrue, List, ℕ, MatchOption, codes, decimal};
ghost use Rattle.edif_spec.specs.Arranged.{canonical_text};
ghost use Rattle.script_spec.specs.Texts.{line};
ghost use Rattle.script_run_spec.specs.Written.{numbered_text, numbered_texts};
ghost use Rattle.report_parts.specs.Parts.{rest_text};

use crate::heads::after;
use crate::same_sink::SameSink;
use edif_writer::write_design;
use itoa::Buffer;
use netdb_outside::WriteError;
use netlist_schema::{NoMemory, Shown, Text};
use std::alloc::Global;

/// What stands behind `script K`, where a text begins with it.
fn behind_number(number: u64, text: &[u8]) -> Option<&[u8]>
    ensures { MatchOption result ((more : List ℕ) → ¬ (text.now ≡ (codes "script " ++ decimal number) ++ more)) (λ more. text.now ≡ (codes "script " ++ decimal number) ++ more.now) }
{
    let mut buffer = Buffer::new();
    match after(text, b"script ") {
        Some(rest) => after(rest, buffer.format(number).as_bytes()),
        None => None,
    }
}

/// What stands behind the line `script K`, where a text begins with it.
fn behind_line(number: u64, text: &[u8]) -> Option<&[u8]>
    ensures { MatchOption result ((more : List ℕ) → ¬ (text.now ≡ line (codes "script" ∷ decimal number ∷ []) ++ more)) (λ more. text.now ≡ line (codes "script" ∷ decimal number ∷ []) ++ more.now) }
{
    match behind_number(number, text) {
        Some(rest) => after(rest, b"\n"),
        None => None,
    }
}

/// What stands behind a transcript under its number, where a text begins with them.
fn behind_text<'a>(number: u64, said: &[u8], text: &'a [u8]) -> Option<&'a [u8]>
    ensures { MatchOption result ((more : List ℕ) → ¬ (text.now ≡ numbered_text number said.now ++ more)) (λ more. text.now ≡ numbered_text number said.now ++ more.now) }
{
    match behind_line(number, text) {
        Some(rest) => after(rest, said),
        None => None,
    }
}

/// What stands behind transcripts, numbered from 0, where a text begins with them.
fn behind_texts<'a>(texts: &[Text], text: &'a [u8]) -> Option<&'a [u8]>
    ensures { MatchOption result ((more : List ℕ) → ¬ (text.now ≡ numbered_texts 0 texts.now ++ more)) (λ more. text.now ≡ numbered_texts 0 texts.now ++ more.now) }
{
    let mut rest = text;
    for number in 0..texts.len() {
        match behind_text(number as u64, texts[number].as_slice(), rest) {
            Some(more) => rest = more,
            None => return None,
        }
    }
    Some(rest)
}

/// Whether a text is that of a design. The text of the design is compared as it is written, and never kept whole.
fn is_design<S: Shown>(alloc: Global, design: &S, text: &[u8]) -> Result<bool, NoMemory>
    ensures { IfOk result (λ same. IsTrue same ↔ (text.now ≡ canonical_text (S.design design.now))) }
{
    let mut sink = SameSink::new(text);
    match write_design(alloc, design, &mut sink) {
        Ok(()) => Ok(sink.is_whole()),
        Err(WriteError::WriteFault) => Ok(sink.is_whole()),
        Err(WriteError::NoMemory) => Err(NoMemory),
    }
}

/// Whether a text is the line `design` and the text of a design.
fn is_head<S: Shown>(alloc: Global, design: &S, text: &[u8]) -> Result<bool, NoMemory>
    ensures { IfOk result (λ same. IsTrue same ↔ (text.now ≡ line (codes "design" ∷ []) ++ canonical_text (S.design design.now))) }
{
    match after(text, b"design\n") {
        Some(rest) => is_design(alloc, design, rest),
        None => Ok(false),
    }
}

/// Whether a text is what stands behind the events of a report: these transcripts under their numbers, the line `design`, and the text of
/// this last version.
pub fn is_rest<S: Shown>(
    alloc: Global,
    last: &S,
    texts: &[Text],
    text: &[u8],
) -> Result<bool, NoMemory>
    ensures { IfOk result (λ same. IsTrue same ↔ (text.now ≡ rest_text (S.design last.now) texts.now)) }
{
    match behind_texts(texts, text) {
        Some(rest) => is_head(alloc, last, rest),
        None => Ok(false),
    }
}
