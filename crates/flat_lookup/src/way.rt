//! Where a path leads.
ghost use Rattle.std.specs.Prelude.{◌≡◌};
ghost use Rattle.flat_spec.specs.Paths.{cell_along};

use crate::contents::inst_at;
use netlist_schema::{CellId, Shown};

/// The cell to which a path leads from the root, whose steps are places of instances: `None` exactly where a step leads nowhere.
/// The root itself is not looked up. Takes no memory.
pub fn cell_along<S: Shown>(design: &S, root: CellId, path: &[u32]) -> Option<CellId>
    ensures { result ≡ cell_along (S.design design.now) root path.now }
{
    let mut cell = root;
    for step in path {
        match inst_at(design, cell, *step) {
            Some(inst) => cell = inst.of,
            None => return None,
        }
    }
    Some(cell)
}
