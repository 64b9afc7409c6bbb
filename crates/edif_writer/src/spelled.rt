//! Line feeds, identifiers, strings and integers, on their way to a sink.
ghost use Rattle.std.specs.Prelude.{◌≡◌, ◌∷◌, pos, if◌then◌else◌};
ghost use Rattle.std.specs.Fmt.{signed_decimal};
ghost use Rattle.edif_spec.specs.Canonical.{name_text, string_text, new_line};
ghost use Rattle.netdb_outside.specs.Buffered.{Writes};

use edif_names::{write_ident, write_integer, write_string};
use netdb_outside::{Appended, BufferedSink, Sink};
use netlist_schema::{Ident, NoMemory, Text};
use std::alloc::Global;

/// An identifier, as a file spells it.
#[derive(Drop)]
struct SpelledIdent<'a>(&'a Ident);

impl<'a> Appended for SpelledIdent<'a> {
    ghost text = { λ s. name_text s.0.now };

    fn append_to(&self, alloc: Global, bytes: &mut Vec<u8>) -> Result<(), NoMemory> {
        write_ident(alloc, self.0, bytes)
    }
}

/// A string between quotes, as a file spells it.
#[derive(Drop)]
struct SpelledString<'a>(&'a Text);

impl<'a> Appended for SpelledString<'a> {
    ghost text = { λ s. string_text s.0.now };

    fn append_to(&self, alloc: Global, bytes: &mut Vec<u8>) -> Result<(), NoMemory> {
        write_string(alloc, self.0, bytes)
    }
}

/// A string of these bytes between quotes, as a file spells it.
#[derive(Drop)]
struct SpelledBytes<'a>(&'a [u8]);

impl<'a> Appended for SpelledBytes<'a> {
    ghost text = { λ s. string_text s.0.now };

    fn append_to(&self, alloc: Global, bytes: &mut Vec<u8>) -> Result<(), NoMemory> {
        let text = Text::of(Vec::from_slice(alloc, self.0)?);
        write_string(alloc, &text, bytes)
    }
}

/// An integer, as a file spells it.
#[derive(Drop)]
struct SpelledInteger(i64);

impl Appended for SpelledInteger {
    ghost text = { λ s. signed_decimal s.0 };

    fn append_to(&self, alloc: Global, bytes: &mut Vec<u8>) -> Result<(), NoMemory> {
        write_integer(alloc, self.0, bytes)
    }
}

/// A line feed, and some blanks.
static LINE: [u8; 17] = *b"\n                ";

/// Begins a line: a line feed, and as many blanks as its level.
pub(crate) fn put_line<K: Sink>(level: usize, page: &mut BufferedSink, out: &mut K)
    ensures { Writes K.written K.faults out.old page.old out.new page.new (new_line level) }
{
    if level < LINE.len() {
        page.put(&LINE[..level + 1], out);
        return;
    }
    put_far(level, page, out);
}

/// Begins a line, blank by blank.
fn put_far<K: Sink>(level: usize, page: &mut BufferedSink, out: &mut K)
    ensures { Writes K.written K.faults out.old page.old out.new page.new (new_line level) }
{
    page.put(b"\n", out);
    for _ in 0..level {
        page.put(b" ", out);
    }
}

/// Writes an identifier.
pub(crate) fn put_ident<K: Sink>(alloc: Global, name: &Ident, page: &mut BufferedSink, out: &mut K)
    ensures { Writes K.written K.faults out.old page.old out.new page.new (name_text name.now) }
{
    page.put_text(alloc, &SpelledIdent(name), out);
}

/// Whether the first byte of an identifier is a letter, so that it stands without `&`.
fn begins_with_letter(name: &[u8]) -> bool
    ensures { name_text name.now ≡ (if result then name.now else 38 ∷ name.now) }
{
    match name.first() {
        Some(first) => first.is_ascii_alphabetic(),
        None => false,
    }
}

/// Writes an identifier of these bytes.
pub(crate) fn put_name<K: Sink>(name: &[u8], page: &mut BufferedSink, out: &mut K)
    ensures { Writes K.written K.faults out.old page.old out.new page.new (name_text name.now) }
{
    if begins_with_letter(name) {
        page.put(name, out);
    } else {
        page.put(b"&", out);
        page.put(name, out);
    }
}

/// Writes a string, between quotes.
pub(crate) fn put_string<K: Sink>(alloc: Global, text: &Text, page: &mut BufferedSink, out: &mut K)
    ensures { Writes K.written K.faults out.old page.old out.new page.new (string_text text.now) }
{
    page.put_text(alloc, &SpelledString(text), out);
}

/// Writes a string of these bytes, between quotes.
pub(crate) fn put_bytes<K: Sink>(alloc: Global, text: &[u8], page: &mut BufferedSink, out: &mut K)
    ensures { Writes K.written K.faults out.old page.old out.new page.new (string_text text.now) }
{
    page.put_text(alloc, &SpelledBytes(text), out);
}

/// Writes an integer.
pub(crate) fn put_integer<K: Sink>(alloc: Global, value: &i64, page: &mut BufferedSink, out: &mut K)
    ensures { Writes K.written K.faults out.old page.old out.new page.new (signed_decimal value.now) }
{
    page.put_text(alloc, &SpelledInteger(*value), out);
}

/// Writes a number that is not negative.
pub(crate) fn put_number<K: Sink>(alloc: Global, value: u32, page: &mut BufferedSink, out: &mut K)
    ensures { Writes K.written K.faults out.old page.old out.new page.new (signed_decimal (pos value)) }
{
    put_integer(alloc, &i64::from(value), page, out);
}
