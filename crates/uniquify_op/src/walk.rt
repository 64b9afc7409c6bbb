//! `BlockWalk`: the occurrences of blocks below a top are gone through in path order.
ghost use Rattle.std.specs.Prelude.{[], IfOk, List};
ghost use Rattle.netlist_schema.specs.Hierarchy.{IsCell};
ghost use Rattle.netlist_schema.specs.Types.{CellId};
ghost use Rattle.netlist_schema.specs.Valid.{IsValid};
ghost use Rattle.flat_spec.specs.Occurrences.{Occurrence};
ghost use Rattle.uniquify_spec.specs.Blocks.{blocks_below};
ghost use Rattle.edit_cells.specs.State.{HasReadSome};
ghost use Rattle.uniquify_op.specs.Walks.{IsSomeWalk, IsTurned, IsWaiting, IsWalk};

use crate::frame::{BlockFrame, Next, take_next};
use crate::met::Met;
use crate::visits::Visits;
use edit_cells::Cells;
use netlist_schema::{CellId, NoMemory};
use std::alloc::Global;
use uniquify_blocks::block_kids;
use uniquify_copies::{CopyDraft, Step};

/// A walk over the occurrences of blocks below a top, in path order. Each occurrence keeps its cell where it is the first of it,
/// and else gets a copy.
#[derive(Drop)]
pub struct BlockWalk {
    pub visits: Visits,
    /// The top, and the occurrences one in the other that were come to last.
    pub stack: Vec<BlockFrame>,
}

/// What came of a turn.
pub enum BlockTurn {
    /// All occurrences are on the list.
    Over,
    /// A library has no room for a copy.
    Full,
    /// The walk goes on.
    More,
}

impl BlockWalk {
    /// A walk at the top.
    pub fn start<C: Cells>(alloc: Global, cells: &mut C, top: CellId) -> Result<BlockWalk, NoMemory>
        requires { IsValid (C.state cells.old).design }
        ensures walk { IfOk result (IsWalk (C.state cells.old).design top (blocks_below (C.state cells.old).design top) []) }
        ensures some { HasReadSome (C.state cells.old) (C.state cells.new) }
    {
        let kids = block_kids(alloc, cells, top)?;
        let met = Met::new(alloc, kids)?;
        let mut stack = Vec::new(alloc);
        stack.push(BlockFrame {
            number: 0,
            row: 0,
            taken: 0,
        })?;
        let draft = CopyDraft::new(alloc);
        Ok(BlockWalk {
            visits: Visits { draft, met },
            stack,
        })
    }

    /// Comes to a block.
    fn visit<C: Cells>(
        &mut self,
        alloc: Global,
        cells: &mut C,
        above: usize,
        step: Step,
    ) -> Result<BlockTurn, NoMemory>
        requires valid { IsValid (C.state cells.old).design }
        requires cell { IsCell (C.state cells.old).design step.of }
        ensures turned { IfOk result (λ turn. (top : CellId) (os seen : List Occurrence) → IsWaiting (C.state cells.old).design top os seen self.old above step → IsTurned (C.state cells.old).design top os self.new turn) }
        ensures some { HasReadSome (C.state cells.old) (C.state cells.new) }
    {
        let Some(row) = self.visits.put(alloc, cells, above, step)? else {
            return Ok(BlockTurn::Full);
        };
        let number = self.visits.draft.spots.len();
        self.stack.push(BlockFrame {
            number,
            row,
            taken: 0,
        })?;
        Ok(BlockTurn::More)
    }

    /// Goes on by one block, or back from an occurrence whose blocks were all taken.
    pub fn turn<C: Cells>(&mut self, alloc: Global, cells: &mut C) -> Result<BlockTurn, NoMemory>
        requires valid { IsValid (C.state cells.old).design }
        requires walk { IsSomeWalk (C.state cells.old).design self.old }
        ensures turned { IfOk result (λ turn. (top : CellId) (os seen : List Occurrence) → IsWalk (C.state cells.old).design top os seen self.old → IsTurned (C.state cells.old).design top os self.new turn) }
        ensures some { HasReadSome (C.state cells.old) (C.state cells.new) }
    {
        let rows = self.visits.met.rows.as_slice();
        let next = take_next(rows, &mut self.stack)?;
        match next {
            Next::End => Ok(BlockTurn::Over),
            Next::Back => Ok(BlockTurn::More),
            Next::Block { above, step } => self.visit(alloc, cells, above, step),
        }
    }
}
