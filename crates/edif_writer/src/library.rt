//! Libraries, with their cells.
ghost use Rattle.std.specs.Prelude.{◌≡◌, ◌∷◌, ◌++◌, All, Some, map};
ghost use Rattle.edif_spec.specs.Arranged.{arranged, new_cells, orders_from};
ghost use Rattle.edif_spec.specs.Canonical.{layout, new_line, name_text, library_keyword, cell_tree, library_tree};
ghost use Rattle.edif_spec.specs.Design.{CellBody, Lib};
ghost use Rattle.edif_spec.specs.Keyword.{spelling_of};
ghost use Rattle.edif_writer.specs.Lines.{lined};
ghost use Rattle.netdb_outside.specs.Buffered.{Writes};
ghost use Rattle.netlist_schema.specs.Design.{lib_at, cells_in, cell_at};
ghost use Rattle.netlist_schema.specs.Hierarchy.{IsCell};
ghost use Rattle.netlist_schema.specs.Valid.{IsValid};

use crate::cell::write_cell;
use crate::small::write_name;
use netdb_outside::{BufferedSink, Sink};
use netlist_order::cell_order;
use netlist_schema::{CellId, LibId, Shown};
use std::alloc::Global;

/// How the form of a library begins.
fn library_opening(is_external: bool) -> &'static [u8]
    ensures { result.now ≡ 40 ∷ name_text (spelling_of (library_keyword is_external)) }
{
    if is_external {
        b"(external"
    } else {
        b"(library"
    }
}

/// Writes the cell at a place of a library on a line of its own, where there is such a cell.
fn write_cell_line<S: Shown, K: Sink>(
    alloc: Global,
    design: &S,
    id: CellId,
    page: &mut BufferedSink,
    out: &mut K,
)
    ensures { (c : CellBody) → cell_at (S.design design.now) id ≡ Some c
        → Writes K.written K.faults out.old page.old out.new page.new (new_line 2 ++ layout 3 (cell_tree (S.design design.now).libs c)) }
{
    if page.is_stuck() {
        return;
    }
    if let Some(body) = design.cell(id) {
        page.put(b"\n  ", out);
        write_cell(alloc, design, body, page, out);
    }
}

/// Writes cells of a library on lines of their own, in an order.
fn write_cell_lines<S: Shown, K: Sink>(
    alloc: Global,
    design: &S,
    lib: LibId,
    order: &[u32],
    page: &mut BufferedSink,
    out: &mut K,
)
    requires valid { IsValid (S.design design.now) }
    requires there { All (λ slot. IsCell (S.design design.now) (record { lib = lib; slot = slot })) order.now }
    ensures { Writes K.written K.faults out.old page.old out.new page.new
        (lined 2 (map (cell_tree (arranged (S.design design.now)).libs) (new_cells (orders_from 0 (S.design design.now).libs) (cells_in (S.design design.now) lib) order.now))) }
{
    for slot in order {
        write_cell_line(alloc, design, CellId { lib, slot: *slot }, page, out);
    }
}

/// Writes a library on a line of its own with its cells in arranged order, where there is such a library.
fn write_library_line<S: Shown, K: Sink>(
    alloc: Global,
    design: &S,
    lib: LibId,
    page: &mut BufferedSink,
    out: &mut K,
)
    requires { IsValid (S.design design.now) }
    ensures { (l : Lib) → lib_at (arranged (S.design design.now)) lib ≡ Some l
        → Writes K.written K.faults out.old page.old out.new page.new (new_line 1 ++ layout 2 (library_tree (arranged (S.design design.now)).libs l)) }
{
    if page.is_stuck() {
        return;
    }
    let Ok(order) = cell_order(alloc, design, lib) else {
        page.run_out();
        return;
    };
    if let Some(head) = design.lib(lib) {
        page.put(b"\n ", out);
        page.put(library_opening(head.external), out);
        page.put(b" ", out);
        write_name(alloc, &head.name, page, out);
        page.put(b"\n  (edifLevel 0)\n  (technology (numberDefinition))", out);
        write_cell_lines(alloc, design, lib, order.as_slice(), page, out);
        page.put(b")", out);
    }
}

/// Writes the libraries on lines of their own, in order.
pub(crate) fn write_library_lines<S: Shown, K: Sink>(
    alloc: Global,
    design: &S,
    page: &mut BufferedSink,
    out: &mut K,
)
    ensures { Writes K.written K.faults out.old page.old out.new page.new (lined 1 (map (library_tree (arranged (S.design design.now)).libs) (arranged (S.design design.now)).libs)) }
{
    for lib in 0..design.lib_count() {
        write_library_line(alloc, design, LibId(lib), page, out);
    }
}
