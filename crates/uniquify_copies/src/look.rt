//! Copies of what stands in cells.
ghost use Rattle.std.specs.Prelude.{◌≡◌, IfOk, Some};
ghost use Rattle.std.specs.Option.{option_copied};
ghost use Rattle.netlist_schema.specs.Design.{cell_at};
ghost use Rattle.edit_rules_spec.specs.Seen.{contents_at};
ghost use Rattle.edit_cells.specs.State.{HasReadSome};

use edit_cells::Cells;
use netlist_schema::{CellBody, CellId, Contents, Copied, NoMemory};
use std::alloc::Global;

fn copied_body(alloc: Global, body: Option<&CellBody>) -> Result<Option<CellBody>, NoMemory>
    ensures { IfOk result (λ made. made ≡ option_copied body.entry) }
{
    match body {
        Some(body) => Ok(Some(body.copy(alloc)?)),
        None => Ok(None),
    }
}

fn copied_contents(alloc: Global, contents: Option<&Contents>) -> Result<Option<Contents>, NoMemory>
    ensures { IfOk result (λ made. made ≡ option_copied contents.entry) }
{
    match contents {
        Some(contents) => Ok(Some(contents.copy(alloc)?)),
        None => Ok(None),
    }
}

/// A copy of a cell, where it is there.
pub(crate) fn body_of<C: Cells>(
    alloc: Global,
    cells: &mut C,
    id: CellId,
) -> Result<Option<CellBody>, NoMemory>
    ensures value { IfOk result (λ body. body ≡ cell_at (C.state cells.old).design id) }
    ensures some { HasReadSome (C.state cells.old) (C.state cells.new) }
{
    copied_body(alloc, cells.cell(id)?)
}

/// A copy of the contents of a cell, where it has any.
pub(crate) fn contents_of<C: Cells>(
    alloc: Global,
    cells: &mut C,
    id: CellId,
) -> Result<Option<Contents>, NoMemory>
    ensures value { IfOk result (λ contents. contents ≡ contents_at (C.state cells.old).design id) }
    ensures some { HasReadSome (C.state cells.old) (C.state cells.new) }
{
    copied_contents(alloc, cells.contents(id)?)
}
