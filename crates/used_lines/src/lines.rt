//! The lines of a cell, and of all cells.
ghost use Rattle.std.specs.Prelude.{◌≡◌};
ghost use Rattle.std.specs.List.{flat_map};
ghost use Rattle.netdb_outside.specs.Buffered.{Writes};
ghost use Rattle.used_spec.specs.Lines.{cell_line, cell_lines, use_line};
ghost use Rattle.used_spec.specs.Uses.{all_cells, count_in, ids_of, users_at, uses};
ghost use Rattle.used_lines.specs.Told.{told};

use crate::names::{cell_name, inst_name, lib_name};
use itoa::Buffer;
use netdb_outside::{BufferedSink, Sink};
use netlist_schema::{CellId, LibId, Shown};
use used_spec::UsedAt;
use where_used::Used;

/// Writes the line of a use.
fn put_use<S: Shown, K: Sink>(design: &S, at: UsedAt, page: &mut BufferedSink, out: &mut K)
    ensures { Writes K.written K.faults out.old page.old out.new page.new (use_line (S.design design.now) at) }
{
    page.put(b" use ", out);
    page.put(lib_name(design, at.cell), out);
    page.put(b" ", out);
    page.put(cell_name(design, at.cell), out);
    page.put(b" ", out);
    page.put(inst_name(design, at), out);
    page.put(b"\n", out);
}

/// Writes the lines of uses.
fn put_uses<S: Shown, K: Sink>(design: &S, users: &[UsedAt], page: &mut BufferedSink, out: &mut K)
    ensures { Writes K.written K.faults out.old page.old out.new page.new (flat_map (use_line (S.design design.now)) users.now) }
{
    for number in 0..users.len() {
        put_use(design, users[number], page, out);
    }
}

/// Writes the line of a cell that has so many uses.
fn put_head<S: Shown, K: Sink>(
    design: &S,
    cell: CellId,
    count: u64,
    page: &mut BufferedSink,
    out: &mut K,
)
    ensures { Writes K.written K.faults out.old page.old out.new page.new (cell_line (S.design design.now) cell count) }
{
    let mut buffer = Buffer::new();
    page.put(b"cell ", out);
    page.put(lib_name(design, cell), out);
    page.put(b" ", out);
    page.put(cell_name(design, cell), out);
    page.put(b" uses ", out);
    page.put(buffer.format(count).as_bytes(), out);
    page.put(b"\n", out);
}

/// Writes the lines of a cell, where the index has it.
fn put_cell<S: Shown, K: Sink>(
    design: &S,
    used: &Used,
    cell: CellId,
    page: &mut BufferedSink,
    out: &mut K,
)
    ensures { Writes K.written K.faults out.old page.old out.new page.new (told (S.design design.now) cell (users_at used.now cell)) }
{
    let Some(users) = used.users(cell) else {
        return;
    };
    put_head(design, cell, users.as_slice().len() as u64, page, out);
    put_uses(design, users.as_slice(), page, out);
}

/// Writes the lines of the cells of a library.
fn put_library<S: Shown, K: Sink>(
    design: &S,
    used: &Used,
    lib: u32,
    page: &mut BufferedSink,
    out: &mut K,
)
    requires { used.now ≡ uses (S.design design.now) }
    ensures { Writes K.written K.faults out.old page.old out.new page.new (flat_map (cell_lines (S.design design.now)) (ids_of lib (count_in (S.design design.now) lib))) }
{
    for slot in 0..design.cell_count(LibId(lib)) {
        let cell = CellId {
            lib: LibId(lib),
            slot,
        };
        put_cell(design, used, cell, page, out);
    }
}

/// Writes the lines of all cells.
pub fn put_cells<S: Shown, K: Sink>(design: &S, used: &Used, page: &mut BufferedSink, out: &mut K)
    requires { used.now ≡ uses (S.design design.now) }
    ensures { Writes K.written K.faults out.old page.old out.new page.new (flat_map (cell_lines (S.design design.now)) (all_cells (S.design design.now))) }
{
    for lib in 0..design.lib_count() {
        put_library(design, used, lib, page, out);
    }
}
