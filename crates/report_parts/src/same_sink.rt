//! `SameSink`: a sink that compares.
ghost use Rattle.std.specs.Prelude.{◌≡◌, ◌<◌, ◌≤◌, ◌↔◌, [], IsTrue, Some, length};
ghost use Rattle.netdb_outside.specs.Outside.{Appends, AppendsFront, Rose};
ghost use Rattle.report_parts.specs.Same.{Compares, IsCommon, PartsFrom, text_then_bytes};

use crate::heads::after;
use netdb_outside::{Put, Sink};
use std::marker::Model;

/// A sink that keeps nothing: the bytes that are put are compared with a text. From the first byte on that is another one there it has a
/// fault at each put.
///
/// As clauses see it, what was written is the text, closed by an end, and then the bytes that were put, up to the first that is another
/// one: so they know that the text stays.
#[derive(Drop)]
pub struct SameSink<'a> {
    text: &'a [u8],
    same: usize,
    other: Option<u8>,
    faults: u64,
}

impl<'a> Model for SameSink<'a> {
    ghost use Rattle.std.specs.Prelude.{◌≤◌, length};
    ghost use Rattle.report_parts.specs.Same.{IsOther, SameFacts, bytes_put};

    ghost Value = { SameFacts };

    ghost view = { λ s. record { text = s.text.now; bytes = bytes_put s.text.now s.same s.other; faults = s.faults } };

    ghost invariant = { λ s. (s.same ≤ length s.text.now) × IsOther s.text.now s.same s.faults s.other };
}

/// How many bytes at the front of a piece are those at the front of a text, one after the other.
fn count_common(text: &[u8], piece: &[u8]) -> usize
    ensures { IsCommon text.now piece.now result }
{
    for at in 0..piece.len() {
        if at >= text.len() {
            return at;
        }
        if text[at] != piece[at] {
            return at;
        }
    }
    piece.len()
}

/// How many bytes at the front of a piece are those at the front of a text.
fn common(text: &[u8], piece: &[u8]) -> usize
    ensures { IsCommon text.now piece.now result }
{
    match after(text, piece) {
        Some(_) => piece.len(),
        None => count_common(text, piece),
    }
}

impl<'a> SameSink<'a> {
    /// A sink that compares with this text, of which nothing was put. Takes no memory.
    pub fn new(text: &'a [u8]) -> SameSink<'a>
        ensures { result ≡ record { text = text.now; bytes = []; faults = 0 } }
    {
        SameSink {
            text,
            same: 0,
            other: None,
            faults: 0,
        }
    }

    /// Compares a piece with the bytes that come next: whether it is the same there.
    fn compare(&mut self, piece: &[u8]) -> bool
        ensures same { Compares self.old self.new piece.now result }
        ensures never_falls { self.old.faults ≤ self.new.faults }
    {
        if self.other.is_some() {
            self.faults = self.faults.saturating_add(1);
            return false;
        }
        let count = common(&self.text[self.same..], piece);
        self.same += count;
        if count == piece.len() {
            return true;
        }
        self.other = Some(piece[count]);
        self.faults = self.faults.saturating_add(1);
        false
    }

    /// Whether the bytes that were put are just the text. Where there was a fault, the text does not begin with them.
    pub fn is_whole(&self) -> bool
        ensures whole { IsTrue result ↔ (self.now.text ≡ self.now.bytes) }
        ensures parted { 0 < self.now.faults → PartsFrom self.now.text self.now.bytes }
    {
        self.other.is_none() && self.same == self.text.len()
    }
}

impl<'a> Sink for SameSink<'a> {
    ghost written = { λ s. Some (text_then_bytes s) };

    ghost faults = { λ s. s.faults };

    fn put(&mut self, piece: &[u8]) -> Put
        ensures put { result ≡ Put.Put → Appends (Some (text_then_bytes self.old)) (Some (text_then_bytes self.new)) piece.now }
        ensures front { AppendsFront (Some (text_then_bytes self.old)) (Some (text_then_bytes self.new)) piece.now }
        ensures failed { result ≡ Put.Failed → Rose self.old.faults self.new.faults }
        ensures never_falls { self.old.faults ≤ self.new.faults }
    {
        if self.compare(piece) {
            Put::Put
        } else {
            Put::Failed
        }
    }
}
