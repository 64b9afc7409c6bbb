//! The events of a history and the transcripts of scripts, on their way to a sink.
ghost use Rattle.netdb_outside.specs.Buffered.{Writes};
ghost use Rattle.script_spec.specs.Texts.{event_text as text_of_event, event_texts};
ghost use Rattle.script_run_spec.specs.Written.{numbered_text, numbered_texts};

use db_spec::Event;
use itoa::Buffer;
use netdb_outside::{BufferedSink, Sink};
use netlist_schema::{Shown, Text};
use script_lang::event_text;
use std::alloc::Global;

/// An event, and its number.
#[derive(Clone, Copy)]
struct NumberedEvent<'a> {
    number: u64,
    event: &'a Event,
}

/// Writes events, numbered from 0. The design tells the names of what conflicts.
pub(crate) fn put_events<S: Shown, K: Sink>(
    alloc: Global,
    design: &S,
    events: &[Event],
    page: &mut BufferedSink,
    out: &mut K,
)
    ensures { Writes K.written K.faults out.old page.old out.new page.new (event_texts (S.design design.now) 0 events.now) }
{
    let mut text = Vec::new(alloc);
    for number in 0..events.len() {
        let event = NumberedEvent {
            number: number as u64,
            event: &events[number],
        };
        put_event(alloc, design, event, &mut text, page, out);
    }
}

/// Writes an event, by way of a list of bytes that is used again for each event.
fn put_event<S: Shown, K: Sink>(
    alloc: Global,
    design: &S,
    event: NumberedEvent<'_>,
    text: &mut Vec<u8>,
    page: &mut BufferedSink,
    out: &mut K,
)
    ensures { Writes K.written K.faults out.old page.old out.new page.new (text_of_event (S.design design.now) event.entry.number event.entry.event.now) }
{
    if page.is_stuck() {
        return;
    }
    text.clear();
    match event_text(alloc, design, event.number, event.event, text) {
        Ok(()) => page.put(text.as_slice(), out),
        Err(_) => page.run_out(),
    }
}

/// Writes transcripts, numbered from 0.
pub(crate) fn put_transcripts<K: Sink>(transcripts: &[Text], page: &mut BufferedSink, out: &mut K)
    ensures { Writes K.written K.faults out.old page.old out.new page.new (numbered_texts 0 transcripts.now) }
{
    for number in 0..transcripts.len() {
        put_transcript(number as u64, transcripts[number].as_slice(), page, out);
    }
}

/// Writes a transcript under its number.
fn put_transcript<K: Sink>(number: u64, text: &[u8], page: &mut BufferedSink, out: &mut K)
    ensures { Writes K.written K.faults out.old page.old out.new page.new (numbered_text number text.now) }
{
    let mut buffer = Buffer::new();
    page.put(b"script ", out);
    page.put(buffer.format(number).as_bytes(), out);
    page.put(b"\n", out);
    page.put(text, out);
}
