//! Blocks along a path get copies.
ghost use Rattle.std.specs.Prelude.{◌≡◌, IfOk, MatchResult, Some, []};
ghost use Rattle.netlist_schema.specs.Types.{TopHead};
ghost use Rattle.netlist_schema.specs.Valid.{IsValid};
ghost use Rattle.edit_cells.specs.State.{HasReadSome};
ghost use Rattle.uniquify_spec.specs.Blocks.{along_path, blocks, steps_along};
ghost use Rattle.eco_reads.specs.Done.{IsDone, IsDoneOrFails};
ghost use Rattle.uniquify_blocks.specs.Along.{chain};
ghost use Rattle.uniquify_blocks.specs.Plans.{IsPlanned};

use crate::along::blocks_along;
use crate::path_draft::draft_blocks;
use crate::plan::{SplitPlan, plan_of, put_plan};
use edit_cells::Cells;
use edit_spec::{Op, Reply};
use netlist_schema::{CellId, Ident, NoMemory, Row};
use std::alloc::Global;
use uniquify_copies::Step;

/// The plan for the blocks along a path, or none where a library has no room. It may read.
fn try_plan<C: Cells>(
    alloc: Global,
    cells: &mut C,
    top: CellId,
    steps: &[Step],
    path: &Row<Ident>,
) -> Result<Option<SplitPlan>, NoMemory>
    requires valid { IsValid (C.state cells.old).design }
    requires top { (head : TopHead) × ((C.state cells.old).design.top ≡ Some head) × (head.cell ≡ top) }
    requires steps { blocks (C.state cells.old).design (steps_along (C.state cells.old).design top path.now) ≡ chain [] steps.now }
    ensures planned { IfOk result (IsPlanned (C.state cells.old).design (along_path (C.state cells.old).design path.now top)) }
    ensures some { HasReadSome (C.state cells.old) (C.state cells.new) }
{
    let Some(draft) = draft_blocks(alloc, cells, steps)? else {
        return Ok(None);
    };
    let plan = plan_of(alloc, cells, top, draft.spots.as_slice())?;
    Ok(Some(plan))
}

/// The same over cells that were read: nothing more is read.
fn plan_path<C: Cells>(
    alloc: Global,
    cells: &mut C,
    top: CellId,
    steps: &[Step],
    path: &Row<Ident>,
) -> Result<Option<SplitPlan>, NoMemory>
    requires valid { IsValid (C.state cells.old).design }
    requires top { (head : TopHead) × ((C.state cells.old).design.top ≡ Some head) × (head.cell ≡ top) }
    requires steps { blocks (C.state cells.old).design (steps_along (C.state cells.old).design top path.now) ≡ chain [] steps.now }
    ensures planned { IfOk result (IsPlanned (C.state cells.old).design (along_path (C.state cells.old).design path.now top)) }
    ensures reads { MatchResult result (λ _. C.state cells.new ≡ C.state cells.old) (λ _. HasReadSome (C.state cells.old) (C.state cells.new)) }
{
    let mark = cells.mark();
    let planned = try_plan(alloc, cells, top, steps, path)?;
    cells.back(mark);
    Ok(planned)
}

/// Gives each block along a path a copy. Where memory is refused, the list of objects read may have gone on.
fn try_unique_path<C: Cells>(
    alloc: Global,
    cells: &mut C,
    path: &Row<Ident>,
) -> Result<Reply, NoMemory>
    ensures { IsDoneOrFails result (C.state cells.old) (C.state cells.new) (Op.UniquePath path.now) }
{
    let Some(top) = cells.top_cell() else {
        return Ok(Reply::NoTop);
    };
    let Some(steps) = blocks_along(alloc, cells, top, path)? else {
        return Ok(Reply::NoPath);
    };
    if path.as_slice().is_empty() {
        return Ok(Reply::NoPath);
    }
    let planned = plan_path(alloc, cells, top, steps.as_slice(), path)?;
    put_plan(cells, planned)
}

/// Gives each block at the end of a step of a path of identifiers from the top a copy, also where it is at one place only: the
/// reply and the design are those of the definition; the objects read grow by what it needs, and the objects written by what
/// it writes, both as sets. A reply that refuses changes nothing but the objects read. The one error is that an allocation
/// was refused; design, objects read and objects written are as before then.
///
/// It takes one step for each identifier, and time in proportion to the contents along the path, which are looked through by
/// name and copied. Nothing goes by the whole design.
pub fn unique_path<C: Cells>(
    alloc: Global,
    cells: &mut C,
    path: &Row<Ident>,
) -> Result<Reply, NoMemory>
    ensures { MatchResult result (IsDone (C.state cells.old) (C.state cells.new) (Op.UniquePath path.now)) (λ _. C.state cells.new ≡ C.state cells.old) }
{
    let mark = cells.mark();
    match try_unique_path(alloc, cells, path) {
        Ok(reply) => Ok(reply),
        Err(refused) => {
            cells.back(mark);
            Err(refused)
        }
    }
}
