//! The texts of a version, on their way to a sink.
ghost use Rattle.std.specs.Prelude.{◌≡◌, ◌≤◌};
ghost use Rattle.netdb_outside.specs.Outside.{Rose};
ghost use Rattle.netdb_calls.specs.Texts.{Writes, WritesHistory, WritesOf, WritesReport, WritesTo, kind_at, status_of_flat, status_of_write};

use crate::opened::{Inside, Opened};
use call_status::Status;
use netdb_desk::Desk;
use netdb_outside::{Sink, WriteError};
use netdb_view::{FlatError, View};
use script_report::write_report;
use std::alloc::Global;

/// A text of a version.
#[derive(Clone, Copy)]
enum Kind {
    /// The canonical text.
    Edif,
    /// The lines of the flattening, and `end`.
    Flat,
    /// The pin table.
    Csv,
    /// What an electrical check finds, and `end`.
    Erc,
    /// Where each cell is used.
    Uses,
}

/// The text of a number, where it is one.
fn kind_of(number: u32) -> Option<Kind>
    ensures { result ≡ kind_at number }
{
    match number {
        0 => Some(Kind::Edif),
        1 => Some(Kind::Flat),
        2 => Some(Kind::Csv),
        3 => Some(Kind::Erc),
        4 => Some(Kind::Uses),
        _ => None,
    }
}

/// What writing a text came to.
fn of_write(written: Result<(), WriteError>) -> Status
    ensures { result ≡ status_of_write written }
{
    match written {
        Ok(()) => Status::Done,
        Err(WriteError::WriteFault) => Status::WriteFault,
        Err(WriteError::NoMemory) => Status::NoMemory,
    }
}

/// What writing a text of the flattening came to.
fn of_flat(written: Result<(), FlatError>) -> Status
    ensures { result ≡ status_of_flat written }
{
    match written {
        Ok(()) => Status::Done,
        Err(FlatError::NoTop) => Status::NoTop,
        Err(FlatError::WriteFault) => Status::WriteFault,
        Err(FlatError::NoMemory) => Status::NoMemory,
    }
}

/// Writes a text of a view's version. At `Done` the whole text was written, and else a front of it. `WriteFault` comes only where the sink
/// had a fault. At `NoTop` the sink is as it was.
fn write_of<K: Sink>(view: &View, kind: Kind, out: &mut K) -> Status
    ensures wrote { Writes view.now kind (K.written out.old) (K.written out.new) result }
    ensures no_top { result ≡ Status.NoTop → out.new ≡ out.old }
    ensures fault { result ≡ Status.WriteFault → Rose (K.faults out.old) (K.faults out.new) }
    ensures never_falls { K.faults out.old ≤ K.faults out.new }
{
    match kind {
        Kind::Edif => of_write(view.write(out)),
        Kind::Flat => of_flat(view.flat(None, out)),
        Kind::Csv => of_flat(view.csv(out)),
        Kind::Erc => of_flat(view.erc(out)),
        Kind::Uses => of_write(view.uses(out)),
    }
}

/// The same of what was opened, where that is a view; else it is a `WrongUse`, and the sink is as it was.
fn write_text<K: Sink>(opened: &Opened, kind: Kind, out: &mut K) -> Status
    ensures wrote { WritesOf opened.now.inside kind (K.written out.old) (K.written out.new) result }
    ensures wrong_use { result ≡ Status.WrongUse → out.new ≡ out.old }
    ensures no_top { result ≡ Status.NoTop → out.new ≡ out.old }
    ensures fault { result ≡ Status.WriteFault → Rose (K.faults out.old) (K.faults out.new) }
    ensures never_falls { K.faults out.old ≤ K.faults out.new }
{
    let Inside::View(view) = &opened.inside else {
        return Status::WrongUse;
    };
    write_of(view, kind, out)
}

/// Writes the text of a number, of the version of the view that was opened: 0 the canonical text, 1 the flattening, 2 the pin table, 3 what
/// an electrical check finds, 4 where each cell is used. At `Done` the whole text was written; at `WriteFault`, which comes only where the
/// sink had a fault, and at `NoMemory` a front of it. `NoTop` comes exactly where the text wants a top and the design has none, and
/// `WrongUse` exactly where there is no text of the number or no view was opened: then the sink is as it was.
pub fn write_to<K: Sink>(opened: &Opened, number: u32, out: &mut K) -> Status
    ensures wrote { WritesTo opened.now.inside number (K.written out.old) (K.written out.new) result }
    ensures wrong_use { result ≡ Status.WrongUse → out.new ≡ out.old }
    ensures no_top { result ≡ Status.NoTop → out.new ≡ out.old }
    ensures fault { result ≡ Status.WriteFault → Rose (K.faults out.old) (K.faults out.new) }
    ensures never_falls { K.faults out.old ≤ K.faults out.new }
{
    let Some(kind) = kind_of(number) else {
        return Status::WrongUse;
    };
    write_text(opened, kind, out)
}

/// Writes the history of a database as the report of a run has it, with no transcripts: its events, and the canonical text of the last
/// version. At `Done` the whole text was written, and else a front of it.
fn write_history<K: Sink>(alloc: Global, desk: &Desk, out: &mut K) -> Status
    ensures wrote { WritesHistory desk.now (K.written out.old) (K.written out.new) result }
    ensures fault { result ≡ Status.WriteFault → Rose (K.faults out.old) (K.faults out.new) }
    ensures never_falls { K.faults out.old ≤ K.faults out.new }
{
    of_write(write_report(alloc, desk.head(), desk.log(), &[], out))
}

/// Writes the history of the database that was opened, as the report of a run has it, with no transcripts: its events, and the canonical
/// text of the last version. Its errors are those of `write_to`: `WrongUse` comes exactly where no database was opened, and `NoTop` never.
pub fn report_to<K: Sink>(alloc: Global, opened: &Opened, out: &mut K) -> Status
    ensures wrote { WritesReport opened.now.inside (K.written out.old) (K.written out.new) result }
    ensures wrong_use { result ≡ Status.WrongUse → out.new ≡ out.old }
    ensures fault { result ≡ Status.WriteFault → Rose (K.faults out.old) (K.faults out.new) }
    ensures never_falls { K.faults out.old ≤ K.faults out.new }
{
    let Inside::Desk(desk) = &opened.inside else {
        return Status::WrongUse;
    };
    write_history(alloc, desk, out)
}
