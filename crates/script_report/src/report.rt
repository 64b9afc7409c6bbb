//! The whole report.
ghost use Rattle.std.specs.Prelude.{◌≤◌, OnErr, OnOk, IsErrOf};
ghost use Rattle.netdb_outside.specs.declared.write_error.WriteError.TheVariants.{WriteFault};
ghost use Rattle.netdb_outside.specs.Outside.{Appends, AppendsFront, Rose};
ghost use Rattle.script_run_spec.specs.Written.{report_lines, written_report};

use crate::lines::{put_events, put_transcripts};
use db_spec::Event;
use edif_writer::write_design;
use netdb_outside::{BufferedSink, Sink, WriteError};
use netlist_schema::{Shown, Text};
use std::alloc::Global;

/// Writes the report of a history: the line `history` and the events, for each transcript the line `script K` and the transcript, K
/// from 0, then the line `design` and the canonical text of the last version, which also tells the names of what conflicts. Memory
/// is wanted for a piece of some kilobytes, for an event and for the order of a library, and never for the whole report.
///
/// After an error a front of the report was written, and no more. `WriteFault` comes only where the sink had a fault.
pub fn write_report<S: Shown, K: Sink>(
    alloc: Global,
    last: &S,
    events: &[Event],
    transcripts: &[Text],
    out: &mut K,
) -> Result<(), WriteError>
    ensures ok { OnOk result (Appends (K.written out.old) (K.written out.new) (written_report (S.design last.now) events.now transcripts.now)) }
    ensures err { OnErr result (AppendsFront (K.written out.old) (K.written out.new) (written_report (S.design last.now) events.now transcripts.now)) }
    ensures fault { IsErrOf result WriteFault → Rose (K.faults out.old) (K.faults out.new) }
    ensures never_falls { K.faults out.old ≤ K.faults out.new }
{
    write_lines(alloc, last, events, transcripts, out)?;
    write_design(alloc, last, out)
}

/// Writes the lines of the report that stand before the text of the last version.
fn write_lines<S: Shown, K: Sink>(
    alloc: Global,
    last: &S,
    events: &[Event],
    transcripts: &[Text],
    out: &mut K,
) -> Result<(), WriteError>
    ensures ok { OnOk result (Appends (K.written out.old) (K.written out.new) (report_lines (S.design last.now) events.now transcripts.now)) }
    ensures err { OnErr result (AppendsFront (K.written out.old) (K.written out.new) (report_lines (S.design last.now) events.now transcripts.now)) }
    ensures fault { IsErrOf result WriteFault → Rose (K.faults out.old) (K.faults out.new) }
    ensures never_falls { K.faults out.old ≤ K.faults out.new }
{
    let mut page = BufferedSink::new(alloc);
    page.put(b"history\n", out);
    put_events(alloc, last, events, &mut page, out);
    put_transcripts(transcripts, &mut page, out);
    page.put(b"design\n", out);
    page.finish(out)
}
