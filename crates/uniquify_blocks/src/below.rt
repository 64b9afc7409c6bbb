//! All that is below a top is read.
ghost use Rattle.std.specs.Prelude.{MatchResult, OnOk};
ghost use Rattle.netlist_schema.specs.Hierarchy.{insts_at};
ghost use Rattle.edit_cells.specs.Parts.{IsInside};
ghost use Rattle.edit_cells.specs.State.{HasRead, HasReadSome};
ghost use Rattle.eco_reads.specs.Walk.{GoesOn, IsListed, IsPlaced};
ghost use Rattle.uniquify_blocks.specs.ForBlocks.{IsForBlock};
ghost use Rattle.uniquify_blocks.specs.Below.{IsForAllBelow};

use crate::read::read_block;
use eco_reads::add_inside;
use edit_cells::Cells;
use netlist_schema::{CellId, NoMemory};
use std::alloc::Global;
use std::collections::BTreeSet;

/// Looks into a cell, and puts the cells of its instances on the list, where they were not seen yet.
#[tactic(auto, using(crate::proofs::Entering::goes_inside, eco_reads::proofs::Reading::read_some))]
fn look<C: Cells>(
    cells: &mut C,
    seen: &mut BTreeSet<CellId>,
    order: &mut Vec<CellId>,
    id: CellId,
) -> Result<(), NoMemory>
    requires { IsListed seen.old.keys order.old.items }
    ensures listed { OnOk result (IsListed seen.new.keys order.new.items) }
    ensures grows { OnOk result (GoesOn order.old.items order.new.items (IsPlaced (insts_at (C.state cells.old).design id))) }
    ensures reads { MatchResult result (λ _. HasRead (C.state cells.old) (C.state cells.new) (IsInside id)) (λ _. HasReadSome (C.state cells.old) (C.state cells.new)) }
{
    add_inside(cells.contents(id)?, seen, order)
}

/// Reads a cell below the top, and puts the cells of its instances on the list, where they were not seen yet.
fn enter<C: Cells>(
    cells: &mut C,
    seen: &mut BTreeSet<CellId>,
    order: &mut Vec<CellId>,
    id: CellId,
) -> Result<(), NoMemory>
    requires { IsListed seen.old.keys order.old.items }
    ensures listed { OnOk result (IsListed seen.new.keys order.new.items) }
    ensures grows { OnOk result (GoesOn order.old.items order.new.items (IsPlaced (insts_at (C.state cells.old).design id))) }
    ensures reads { MatchResult result (λ _. HasRead (C.state cells.old) (C.state cells.new) (IsForBlock (C.state cells.old).design id)) (λ _. HasReadSome (C.state cells.old) (C.state cells.new)) }
{
    let _block = read_block(cells, id)?;
    look(cells, seen, order, id)
}

/// Reads what is inside the top, and each cell below it once: inside and out, and the directory of its library where it is a
/// block. The list of cells that were seen is gone through from its front; it takes one step for each of them.
pub fn read_below<C: Cells>(alloc: Global, cells: &mut C, top: CellId) -> Result<(), NoMemory>
    ensures { MatchResult result (λ _. HasRead (C.state cells.old) (C.state cells.new) (IsForAllBelow (C.state cells.old).design top)) (λ _. HasReadSome (C.state cells.old) (C.state cells.new)) }
{
    let mut seen = BTreeSet::new(alloc);
    let mut order = Vec::new(alloc);
    look(cells, &mut seen, &mut order, top)?;
    let mut next = 0usize;
    while next < order.len() {
        let id = order[next];
        let Ok(()) = enter(cells, &mut seen, &mut order, id) else {
            return Err(NoMemory);
        };
        next += 1;
    }
    Ok(())
}
