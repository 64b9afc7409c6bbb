//! References to cells, by the names of libraries, cells and views.
ghost use Rattle.std.specs.Prelude.{ℕ};
ghost use Rattle.edif_spec.specs.Canonical.{layout, name_text, cell_ref_tree};
ghost use Rattle.edif_spec.specs.Design.{cell_id, lib_id, view_id};
ghost use Rattle.netlist_schema.specs.Hierarchy.{IsCell};
ghost use Rattle.netdb_outside.specs.Buffered.{Writes};

use crate::spelled::put_ident;
use netdb_outside::{BufferedSink, Sink};
use netlist_schema::{CellId, Shown};
use std::alloc::Global;

/// Writes the identifier of the view of a cell.
pub(crate) fn write_view_id<S: Shown, K: Sink>(
    alloc: Global,
    design: &S,
    id: CellId,
    page: &mut BufferedSink,
    out: &mut K,
)
    requires { IsCell (S.design design.now) id }
    ensures { Writes K.written K.faults out.old page.old out.new page.new (name_text (view_id (S.design design.now).libs id)) }
{
    if let Some(body) = design.cell(id) {
        put_ident(alloc, &body.view.id, page, out);
    }
}

/// Writes the identifier of a cell.
fn write_cell_id<S: Shown, K: Sink>(
    alloc: Global,
    design: &S,
    id: CellId,
    page: &mut BufferedSink,
    out: &mut K,
)
    requires { IsCell (S.design design.now) id }
    ensures { Writes K.written K.faults out.old page.old out.new page.new (name_text (cell_id (S.design design.now).libs id)) }
{
    if let Some(body) = design.cell(id) {
        put_ident(alloc, &body.name.id, page, out);
    }
}

/// Writes the identifier of the library of a cell.
fn write_lib_id<S: Shown, K: Sink>(
    alloc: Global,
    design: &S,
    id: CellId,
    page: &mut BufferedSink,
    out: &mut K,
)
    requires { IsCell (S.design design.now) id }
    ensures { Writes K.written K.faults out.old page.old out.new page.new (name_text (lib_id (S.design design.now).libs id.lib.0)) }
{
    if let Some(head) = design.lib(id.lib) {
        put_ident(alloc, &head.name.id, page, out);
    }
}

/// Writes a reference to a cell, which names its library.
pub(crate) fn write_cell_ref<S: Shown, K: Sink>(
    alloc: Global,
    design: &S,
    id: CellId,
    page: &mut BufferedSink,
    out: &mut K,
)
    requires { IsCell (S.design design.now) id }
    ensures { (level : ℕ) → Writes K.written K.faults out.old page.old out.new page.new (layout level (cell_ref_tree (S.design design.now).libs id)) }
{
    page.put(b"(cellRef ", out);
    write_cell_id(alloc, design, id, page, out);
    page.put(b" (libraryRef ", out);
    write_lib_id(alloc, design, id, page, out);
    page.put(b"))", out);
}
