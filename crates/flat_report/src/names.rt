//! The identifiers of libraries and cells.
ghost use Rattle.std.specs.Prelude.{◌≡◌};
ghost use Rattle.flat_lines_spec.specs.Lines.{cell_text, lib_text};

use netlist_schema::{CellId, Shown};

/// The identifier of the library of a cell; nothing where there is no such library.
#[inline(always)]
pub(crate) fn lib_name<S: Shown>(design: &S, id: CellId) -> &[u8]
    ensures { result.now ≡ lib_text (S.design design.now) id }
{
    match design.lib(id.lib) {
        Some(head) => head.name.id.as_slice(),
        None => &[],
    }
}

/// The identifier of a cell; nothing where there is no such cell.
#[inline(always)]
pub(crate) fn cell_name<S: Shown>(design: &S, id: CellId) -> &[u8]
    ensures { result.now ≡ cell_text (S.design design.now) id }
{
    match design.cell(id) {
        Some(body) => body.name.id.as_slice(),
        None => &[],
    }
}
