//! Copies of the blocks along a path.
ghost use Rattle.std.specs.Prelude.{All, IfOk};
ghost use Rattle.netlist_schema.specs.Hierarchy.{IsCell};
ghost use Rattle.netlist_schema.specs.Types.{CellId};
ghost use Rattle.edit_cells.specs.State.{HasReadSome};
ghost use Rattle.uniquify_blocks.specs.Plans.{IsChainDraft};

use crate::step::step_at;
use edit_cells::Cells;
use netlist_schema::NoMemory;
use std::alloc::Global;
use uniquify_copies::{CopyDraft, Step};

/// A copy for each of these blocks, each in the one before it; `None` where a library has no room for one.
pub(crate) fn draft_blocks<C: Cells>(
    alloc: Global,
    cells: &mut C,
    steps: &[Step],
) -> Result<Option<CopyDraft>, NoMemory>
    requires { All (λ step. IsCell (C.state cells.old).design step.of) steps.now }
    ensures drafted { IfOk result (λ found. (top : CellId) → IsChainDraft (C.state cells.old).design top steps.now found) }
    ensures some { HasReadSome (C.state cells.old) (C.state cells.new) }
{
    let mut draft = CopyDraft::new(alloc);
    for place in 0..steps.len() {
        let step = step_at(steps, place);
        let above = draft.spots.len();
        match draft.copy(alloc, cells, above, step.place, step.of) {
            Ok(true) => {}
            Ok(false) => return Ok(None),
            Err(refused) => return Err(refused),
        }
    }
    Ok(Some(draft))
}
