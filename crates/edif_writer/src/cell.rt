//! Cells, with their ports.
ghost use Rattle.std.specs.Prelude.{◌≡◌, ℕ, IfSome, map};
ghost use Rattle.edif_spec.specs.Canonical.{layout, perhaps, direction_tree, kind_word, port_name_tree, port_tree, interface_tree, view_tree, cell_tree};
ghost use Rattle.edif_writer.specs.Lines.{spaced, lined};
ghost use Rattle.edif_writer.specs.Placed.{IsPlaced};
ghost use Rattle.netdb_outside.specs.Buffered.{Writes};

use crate::contents::write_contents_line;
use crate::small::{write_name, write_properties, write_property_lines, write_text_form};
use crate::spelled::{put_line, put_number};
use netdb_outside::{BufferedSink, Sink};
use netlist_schema::{CellBody, CellKind, Direction, Name, Port, Row, Shown, Width};
use std::alloc::Global;

/// The level of the properties of a cell.
const CELL_LEVEL: usize = 3;

/// The level of the properties of a view.
const VIEW_LEVEL: usize = 4;

/// The level of the ports and properties of an interface.
const INTERFACE_LEVEL: usize = 5;

/// How a kind of cells is spelled.
fn kind_spelling(kind: CellKind) -> &'static [u8]
    ensures { result.now ≡ kind_word kind }
{
    match kind {
        CellKind::Generic => b"GENERIC",
        CellKind::Tie => b"TIE",
        CellKind::Ripper => b"RIPPER",
    }
}

/// The form of a direction behind a blank, or nothing.
fn direction_text(direction: Option<Direction>) -> &'static [u8]
    ensures { (level : ℕ) → result.now ≡ spaced level (perhaps direction_tree direction) }
{
    match direction {
        None => b"",
        Some(Direction::Input) => b" (direction INPUT)",
        Some(Direction::Output) => b" (direction OUTPUT)",
        Some(Direction::Inout) => b" (direction INOUT)",
    }
}

/// Writes the name of a port: of an array with its width.
fn write_port_name<K: Sink>(
    alloc: Global,
    name: &Name,
    array: &Option<Width>,
    page: &mut BufferedSink,
    out: &mut K,
)
    ensures { (level : ℕ) → Writes K.written K.faults out.old page.old out.new page.new (layout level (port_name_tree name.now array.now)) }
{
    match array {
        None => write_name(alloc, name, page, out),
        Some(width) => {
            page.put(b"(array ", out);
            write_name(alloc, name, page, out);
            page.put(b" ", out);
            put_number(alloc, width.get(), page, out);
            page.put(b")", out);
        }
    }
}

/// Writes a port.
fn write_port<K: Sink>(alloc: Global, port: &Port, page: &mut BufferedSink, out: &mut K)
    ensures { (level : ℕ) → Writes K.written K.faults out.old page.old out.new page.new (layout level (port_tree port.now)) }
{
    page.put(b"(port ", out);
    write_port_name(alloc, &port.name, &port.array, page, out);
    page.put(direction_text(port.direction), out);
    write_text_form(alloc, b" (designator ", &port.designator, page, out);
    write_properties(alloc, port.properties.as_slice(), page, out);
    page.put(b")", out);
}

/// Writes ports on lines of their own.
fn write_port_lines<K: Sink>(alloc: Global, ports: &Row<Port>, page: &mut BufferedSink, out: &mut K)
    ensures { Writes K.written K.faults out.old page.old out.new page.new (lined 5 (map port_tree ports.now)) }
{
    for port in ports.as_slice() {
        put_line(INTERFACE_LEVEL, page, out);
        write_port(alloc, port, page, out);
    }
}

/// Writes the interface of a cell.
fn write_interface<K: Sink>(alloc: Global, body: &CellBody, page: &mut BufferedSink, out: &mut K)
    ensures { Writes K.written K.faults out.old page.old out.new page.new (layout 5 (interface_tree body.now)) }
{
    page.put(b"(interface", out);
    write_port_lines(alloc, &body.ports, page, out);
    write_property_lines(
        alloc,
        INTERFACE_LEVEL,
        &body.interface_properties,
        page,
        out,
    );
    page.put(b")", out);
}

/// Writes the view of a cell.
fn write_view<S: Shown, K: Sink>(
    alloc: Global,
    design: &S,
    body: &CellBody,
    page: &mut BufferedSink,
    out: &mut K,
)
    requires { IfSome body.now.contents (IsPlaced (S.design design.now) body.now.ports) }
    ensures { Writes K.written K.faults out.old page.old out.new page.new (layout 4 (view_tree (S.design design.now).libs body.now)) }
{
    page.put(b"(view ", out);
    write_name(alloc, &body.view, page, out);
    page.put(b" (viewType NETLIST)\n    ", out);
    write_interface(alloc, body, page, out);
    write_property_lines(alloc, VIEW_LEVEL, &body.view_properties, page, out);
    write_contents_line(alloc, design, &body.ports, &body.contents, page, out);
    page.put(b")", out);
}

/// Writes a cell.
pub(crate) fn write_cell<S: Shown, K: Sink>(
    alloc: Global,
    design: &S,
    body: &CellBody,
    page: &mut BufferedSink,
    out: &mut K,
)
    requires { IfSome body.now.contents (IsPlaced (S.design design.now) body.now.ports) }
    ensures { Writes K.written K.faults out.old page.old out.new page.new (layout 3 (cell_tree (S.design design.now).libs body.now)) }
{
    page.put(b"(cell ", out);
    write_name(alloc, &body.name, page, out);
    page.put(b" (cellType ", out);
    page.put(kind_spelling(body.kind), out);
    page.put(b")", out);
    write_property_lines(alloc, CELL_LEVEL, &body.properties, page, out);
    page.put(b"\n   ", out);
    write_view(alloc, design, body, page, out);
    page.put(b")", out);
}
