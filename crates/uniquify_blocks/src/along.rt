//! What a path of identifiers leads to, and what it reads.
ghost use Rattle.std.specs.Prelude.{◌≡◌, ◌++◌, [], ◌∷◌, IfOk, IfSome, MatchResult, OnErr, OnOk, cond, option_map};
ghost use Rattle.std.specs.Option.{option_copied};
ghost use Rattle.netlist_schema.specs.Design.{insts_in};
ghost use Rattle.edit_rules_spec.specs.Seen.{contents_at};
ghost use Rattle.edit_cells.specs.Parts.{HasLimits};
ghost use Rattle.edit_cells.specs.State.{HasRead, HasReadSome};
ghost use Rattle.uniquify_blocks.specs.Along.{ArePathBlocks, HasGone, IsOnPath, IsStep};

use crate::read::{read_block, read_cell};
use eco_reads::inst_place;
use edit_cells::Cells;
use netlist_schema::{CellId, Contents, Ident, NoMemory, Row};
use std::alloc::Global;
use uniquify_copies::Step;

/// The instance with this name.
fn step_of(contents: Option<&Contents>, name: &Ident) -> Option<Step>
    requires { IfSome contents (λ inside. HasLimits inside.now) }
    ensures { IsStep (insts_in (option_copied contents.entry)) name.now result }
{
    let contents = contents?;
    let place = inst_place(&contents.insts, name)?;
    Some(Step {
        place: place as u32,
        of: contents.insts.at(place).of,
    })
}

/// The instance with this name in a cell that was looked into. Nothing more is read.
fn step_in<C: Cells>(cells: &mut C, at: CellId, name: &Ident) -> Result<Option<Step>, NoMemory>
    ensures found { IfOk result (IsStep (insts_in (contents_at (C.state cells.old).design at)) name.now) }
    ensures reads { MatchResult result (λ _. C.state cells.new ≡ C.state cells.old) (λ _. HasReadSome (C.state cells.old) (C.state cells.new)) }
{
    let mark = cells.mark();
    let found = step_of(cells.contents(at)?, name);
    cells.back(mark);
    Ok(found)
}

/// Puts a step on the list where it leads to a block.
fn add_block(blocks: &mut Vec<Step>, block: bool, step: Step) -> Result<(), NoMemory>
    ensures { OnOk result (blocks.new.items ≡ blocks.old.items ++ cond block (step ∷ []) []) }
{
    if block {
        blocks.push(step)?;
    }
    Ok(())
}

/// Goes one step along a path: the instance with this name, and what its cell reads. A block goes on the list.
fn go<C: Cells>(
    cells: &mut C,
    at: CellId,
    name: &Ident,
    blocks: &mut Vec<Step>,
) -> Result<Option<CellId>, NoMemory>
    ensures gone { IfOk result (HasGone (C.state cells.old) (C.state cells.new) at name.now blocks.old.items blocks.new.items) }
    ensures some { OnErr result (HasReadSome (C.state cells.old) (C.state cells.new)) }
{
    let Some(step) = step_in(cells, at, name)? else {
        return Ok(None);
    };
    let block = read_block(cells, step.of)?;
    add_block(blocks, block, step)?;
    Ok(Some(step.of))
}

/// Goes along a path of identifiers from a cell, as far as it leads: reads the cell and each cell at the end of a step, inside
/// and out, and the directory of each block there. The blocks at the ends of its steps, or `None` where it does not lead to
/// its end.
pub(crate) fn blocks_along<C: Cells>(
    alloc: Global,
    cells: &mut C,
    top: CellId,
    path: &Row<Ident>,
) -> Result<Option<Vec<Step>>, NoMemory>
    ensures found { IfOk result (λ found. ArePathBlocks (C.state cells.old).design top path.now (option_map (λ steps. steps.items) found)) }
    ensures reads { MatchResult result (λ _. HasRead (C.state cells.old) (C.state cells.new) (IsOnPath (C.state cells.old).design top path.now)) (λ _. HasReadSome (C.state cells.old) (C.state cells.new)) }
{
    let mut blocks = Vec::new(alloc);
    let _top = read_cell(cells, top)?;
    let mut at = top;
    for name in path.as_slice() {
        let Ok(next) = go(cells, at, name, &mut blocks) else {
            return Err(NoMemory);
        };
        let Some(of) = next else {
            return Ok(None);
        };
        at = of;
    }
    Ok(Some(blocks))
}
