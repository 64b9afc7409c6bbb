//! Each occurrence of a block gets a cell of its own.
ghost use Rattle.std.specs.Prelude.{◌≡◌, IfOk, MatchResult};
ghost use Rattle.netlist_schema.specs.Valid.{IsValid};
ghost use Rattle.edit_cells.specs.State.{HasReadSome};
ghost use Rattle.uniquify_spec.specs.Blocks.{each_block};
ghost use Rattle.eco_reads.specs.Done.{IsDone, IsDoneOrFails};
ghost use Rattle.uniquify_blocks.specs.Plans.{IsPlanned};

use crate::blocks::draft_blocks;
use edit_cells::Cells;
use edit_spec::{Op, Reply};
use netlist_schema::{CellId, NoMemory};
use std::alloc::Global;
use uniquify_blocks::{SplitPlan, plan_of, put_plan, read_below};

/// The plan for the blocks below a top, or none where a library has no room. It may read.
fn try_plan<C: Cells>(
    alloc: Global,
    cells: &mut C,
    top: CellId,
) -> Result<Option<SplitPlan>, NoMemory>
    requires { IsValid (C.state cells.old).design }
    ensures planned { IfOk result (IsPlanned (C.state cells.old).design (each_block (C.state cells.old).design top)) }
    ensures some { HasReadSome (C.state cells.old) (C.state cells.new) }
{
    let Some(draft) = draft_blocks(alloc, cells, top)? else {
        return Ok(None);
    };
    let plan = plan_of(alloc, cells, top, draft.spots.as_slice())?;
    Ok(Some(plan))
}

/// The same over cells that were read: nothing more is read.
fn plan_blocks<C: Cells>(
    alloc: Global,
    cells: &mut C,
    top: CellId,
) -> Result<Option<SplitPlan>, NoMemory>
    requires { IsValid (C.state cells.old).design }
    ensures planned { IfOk result (IsPlanned (C.state cells.old).design (each_block (C.state cells.old).design top)) }
    ensures reads { MatchResult result (λ _. C.state cells.new ≡ C.state cells.old) (λ _. HasReadSome (C.state cells.old) (C.state cells.new)) }
{
    let mark = cells.mark();
    let planned = try_plan(alloc, cells, top)?;
    cells.back(mark);
    Ok(planned)
}

/// Gives each later occurrence of a block a copy. Where memory is refused, the list of objects read may have gone on.
fn try_uniquify<C: Cells>(alloc: Global, cells: &mut C) -> Result<Reply, NoMemory>
    ensures { IsDoneOrFails result (C.state cells.old) (C.state cells.new) Op.Uniquify }
{
    let Some(top) = cells.top_cell() else {
        return Ok(Reply::NoTop);
    };
    read_below(alloc, cells, top)?;
    let planned = plan_blocks(alloc, cells, top)?;
    put_plan(cells, planned)
}

/// Gives each occurrence of a block below the top a cell of its own: in path order the first of a cell keeps it, and each later
/// one gets a copy. The reply and the design are those of the definition; the objects read grow by what it needs, and the
/// objects written by what it writes, both as sets. A reply that refuses changes nothing but the objects read. The one error is
/// that an allocation was refused; design, objects read and objects written are as before then.
///
/// Each cell below the top is read once. Then it takes time in the occurrences of blocks that it comes to, and in the contents
/// that are copied; it comes to no more of them than there are blocks and places in libraries, and does not call itself.
pub fn uniquify<C: Cells>(alloc: Global, cells: &mut C) -> Result<Reply, NoMemory>
    ensures { MatchResult result (IsDone (C.state cells.old) (C.state cells.new) Op.Uniquify) (λ _. C.state cells.new ≡ C.state cells.old) }
{
    let mark = cells.mark();
    match try_uniquify(alloc, cells) {
        Ok(reply) => Ok(reply),
        Err(refused) => {
            cells.back(mark);
            Err(refused)
        }
    }
}
