//! Copies for the occurrences of blocks below a top.
ghost use Rattle.std.specs.Prelude.{◌≡◌, IfOk};
ghost use Rattle.netlist_schema.specs.Valid.{IsValid};
ghost use Rattle.edit_cells.specs.State.{HasReadSome};
ghost use Rattle.uniquify_op.specs.Marks.{AreBlocksDrafted};

use crate::visits::Visits;
use crate::walk::{BlockTurn, BlockWalk};
use edit_cells::Cells;
use netlist_schema::{CellId, NoMemory};
use std::alloc::Global;
use uniquify_copies::CopyDraft;

/// The draft of a walk.
fn draft_of(walk: BlockWalk) -> CopyDraft
    ensures { result ≡ walk.visits.draft }
{
    let BlockWalk { visits, stack: _ } = walk;
    let Visits { draft, met: _ } = visits;
    draft
}

/// The occurrences of blocks below a top in path order, each later one of a cell with a copy; `None` where a library has no
/// room for one. It goes no further than to the first copy without room, so it comes to no more occurrences than there are
/// blocks and places in libraries. It takes two turns for each and two for the top, so it is over long before 2^64 - 1 turns,
/// behind which it would end with `NoMemory`.
pub(crate) fn draft_blocks<C: Cells>(
    alloc: Global,
    cells: &mut C,
    top: CellId,
) -> Result<Option<CopyDraft>, NoMemory>
    requires { IsValid (C.state cells.old).design }
    ensures drafted { IfOk result (AreBlocksDrafted (C.state cells.old).design top) }
    ensures some { HasReadSome (C.state cells.old) (C.state cells.new) }
{
    let mut walk = BlockWalk::start(alloc, cells, top)?;
    for _ in 0..u64::MAX {
        match walk.turn(alloc, cells) {
            Ok(BlockTurn::Over) => return Ok(Some(draft_of(walk))),
            Ok(BlockTurn::Full) => return Ok(None),
            Ok(BlockTurn::More) => {}
            Err(refused) => return Err(refused),
        }
    }
    Err(NoMemory)
}
