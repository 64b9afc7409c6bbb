//! What is read of the cell of an instance.
ghost use Rattle.std.specs.Prelude.{◌≡◌, IfOk, MatchResult, option_and_then, option_map};
ghost use Rattle.std.specs.Option.{option_copied};
ghost use Rattle.netlist_schema.specs.Design.{insts_in};
ghost use Rattle.edit_rules_spec.specs.Find.{inst_named};
ghost use Rattle.edit_rules_spec.specs.Seen.{contents_at};
ghost use Rattle.edit_cells.specs.Parts.{IsFace, IsInside};
ghost use Rattle.edit_cells.specs.State.{HasRead, HasReadSome};
ghost use Rattle.ungroup_op.specs.Read.{IsForCell};

use crate::notes::cell_of_inst;
use edit_cells::Cells;
use netlist_schema::{CellId, Contents, Copied, Ident, NoMemory};
use std::alloc::Global;

/// The cell of the instance with a name in a cell.
pub(crate) fn read_inst<C: Cells>(
    cells: &mut C,
    cell: CellId,
    name: &Ident,
) -> Result<Option<CellId>, NoMemory>
    ensures found { IfOk result (λ of. of ≡ option_map (λ inst. inst.of) (inst_named name.now (insts_in (contents_at (C.state cells.old).design cell)))) }
    ensures reads { MatchResult result (λ _. HasRead (C.state cells.old) (C.state cells.new) (IsInside cell)) (λ _. HasReadSome (C.state cells.old) (C.state cells.new)) }
{
    Ok(cell_of_inst(cells.contents(cell)?, name))
}

/// Looks at a cell from outside.
fn look<C: Cells>(cells: &mut C, cell: CellId) -> Result<(), NoMemory>
    ensures { MatchResult result (λ _. HasRead (C.state cells.old) (C.state cells.new) (IsFace cell)) (λ _. HasReadSome (C.state cells.old) (C.state cells.new)) }
{
    let _face = cells.face(cell)?;
    Ok(())
}

/// A copy of contents, where there are some.
fn copy_of(alloc: Global, contents: Option<&Contents>) -> Result<Option<Contents>, NoMemory>
    ensures { IfOk result (λ made. made ≡ option_copied contents.entry) }
{
    match contents {
        Some(contents) => Ok(Some(contents.copy(alloc)?)),
        None => Ok(None),
    }
}

/// A copy of what is inside a cell.
#[tactic(auto, using(eco_reads::proofs::Reading::read_some))]
fn copy_inside<C: Cells>(
    alloc: Global,
    cells: &mut C,
    cell: CellId,
) -> Result<Option<Contents>, NoMemory>
    ensures value { IfOk result (λ contents. contents ≡ contents_at (C.state cells.old).design cell) }
    ensures reads { MatchResult result (λ _. HasRead (C.state cells.old) (C.state cells.new) (IsInside cell)) (λ _. HasReadSome (C.state cells.old) (C.state cells.new)) }
{
    copy_of(alloc, cells.contents(cell)?)
}

/// A copy of what is inside a cell, where there is one; it is looked at from outside too.
pub(crate) fn read_within<C: Cells>(
    alloc: Global,
    cells: &mut C,
    cell: Option<CellId>,
) -> Result<Option<Contents>, NoMemory>
    ensures value { IfOk result (λ contents. contents ≡ option_and_then (contents_at (C.state cells.old).design) cell) }
    ensures reads { MatchResult result (λ _. HasRead (C.state cells.old) (C.state cells.new) (IsForCell cell)) (λ _. HasReadSome (C.state cells.old) (C.state cells.new)) }
{
    let Some(cell) = cell else {
        return Ok(None);
    };
    look(cells, cell)?;
    copy_inside(alloc, cells, cell)
}
