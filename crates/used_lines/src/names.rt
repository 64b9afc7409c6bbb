//! The identifiers of libraries, cells and instances.
ghost use Rattle.std.specs.Prelude.{◌≡◌};
ghost use Rattle.flat_lines_spec.specs.Lines.{cell_text, lib_text};
ghost use Rattle.used_spec.specs.Lines.{inst_text};

use flat_lookup::inst_at;
use netlist_schema::{CellId, Shown};
use used_spec::UsedAt;

/// The identifier of the library of a cell; nothing where there is no such library.
pub fn lib_name<S: Shown>(design: &S, id: CellId) -> &[u8]
    ensures { result.now ≡ lib_text (S.design design.now) id }
{
    match design.lib(id.lib) {
        Some(head) => head.name.id.as_slice(),
        None => &[],
    }
}

/// The identifier of a cell; nothing where there is no such cell.
pub fn cell_name<S: Shown>(design: &S, id: CellId) -> &[u8]
    ensures { result.now ≡ cell_text (S.design design.now) id }
{
    match design.cell(id) {
        Some(body) => body.name.id.as_slice(),
        None => &[],
    }
}

/// The identifier of the instance of a use; nothing where there is no such instance.
pub fn inst_name<S: Shown>(design: &S, at: UsedAt) -> &[u8]
    ensures { result.now ≡ inst_text (S.design design.now) at }
{
    match inst_at(design, at.cell, at.inst) {
        Some(inst) => inst.name.id.as_slice(),
        None => &[],
    }
}
