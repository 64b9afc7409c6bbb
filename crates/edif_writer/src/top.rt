//! The form of the top, with its properties and the notes.
ghost use Rattle.std.specs.Prelude.{ℕ, map};
ghost use Rattle.edif_spec.specs.Arranged.{arranged};
ghost use Rattle.edif_spec.specs.Canonical.{layout, perhaps, note_tree, design_tree};
ghost use Rattle.edif_spelling_spec.specs.Tree.{word};
ghost use Rattle.edif_writer.specs.Lines.{spaced, lined};
ghost use Rattle.netdb_outside.specs.Buffered.{Writes};

use crate::reference::write_cell_ref;
use crate::small::{write_name, write_property, write_property_lines};
use crate::spelled::{put_ident, put_line};
use netdb_outside::{BufferedSink, Sink};
use netlist_schema::{Ident, Note, Row, Shown};
use std::alloc::Global;

/// The level of the properties of the top, and of the notes.
const TOP_LEVEL: usize = 2;

/// Writes the steps of a path on its line.
fn write_steps<K: Sink>(alloc: Global, path: &Row<Ident>, page: &mut BufferedSink, out: &mut K)
    ensures { (level : ℕ) → Writes K.written K.faults out.old page.old out.new page.new (spaced level (map word path.now)) }
{
    for step in path.as_slice() {
        page.put(b" ", out);
        put_ident(alloc, step, page, out);
    }
}

/// Writes a note.
fn write_note<K: Sink>(alloc: Global, note: &Note, page: &mut BufferedSink, out: &mut K)
    ensures { (level : ℕ) → Writes K.written K.faults out.old page.old out.new page.new (layout level (note_tree note.now)) }
{
    page.put(b"(userData netdb_note (path", out);
    write_steps(alloc, &note.path, page, out);
    page.put(b") ", out);
    write_property(alloc, &note.property, page, out);
    page.put(b")", out);
}

/// Writes notes on lines of their own.
fn write_note_lines<K: Sink>(alloc: Global, notes: &Row<Note>, page: &mut BufferedSink, out: &mut K)
    ensures { Writes K.written K.faults out.old page.old out.new page.new (lined 2 (map note_tree notes.now)) }
{
    for note in notes.as_slice() {
        put_line(TOP_LEVEL, page, out);
        write_note(alloc, note, page, out);
    }
}

/// Writes the form of the top on a line of its own, where there is a top.
pub(crate) fn write_top_line<S: Shown, K: Sink>(
    alloc: Global,
    design: &S,
    page: &mut BufferedSink,
    out: &mut K,
)
    ensures { Writes K.written K.faults out.old page.old out.new page.new
        (lined 1 (perhaps (design_tree (arranged (S.design design.now)).libs (S.design design.now).notes) (arranged (S.design design.now)).top)) }
{
    if let Some(top) = design.top() {
        page.put(b"\n (design ", out);
        write_name(alloc, &top.name, page, out);
        page.put(b" ", out);
        write_cell_ref(alloc, design, top.cell, page, out);
        write_property_lines(alloc, TOP_LEVEL, &top.properties, page, out);
        write_note_lines(alloc, design.notes(), page, out);
        page.put(b")", out);
    }
}
