//! The blocks that stand in a cell.
ghost use Rattle.std.specs.Prelude.{◌≡◌, ◌≤◌, ◌++◌, [], ◌∷◌, IfOk, IfSome, OnOk, cond, filter, length};
ghost use Rattle.std.specs.Option.{option_copied};
ghost use Rattle.netlist_schema.specs.Design.{insts_in};
ghost use Rattle.netlist_schema.specs.Hierarchy.{insts_at};
ghost use Rattle.netlist_schema.specs.declared.limits.TheConstants.{MOST_INSTS};
ghost use Rattle.uniquify_spec.specs.Blocks.{is_block};
ghost use Rattle.edit_cells.specs.Parts.{HasLimits};
ghost use Rattle.edit_cells.specs.State.{HasReadSome};
ghost use Rattle.uniquify_blocks.specs.Kids.{kids_of, steps_of};

use crate::read::read_cell;
use crate::step::step_at;
use edit_cells::Cells;
use netlist_schema::{CellId, Contents, Inst, Listed, NoMemory, Parts, Row};
use std::alloc::Global;
use uniquify_copies::Step;

/// The instances of a list, with their places.
fn steps_of(alloc: Global, insts: &Parts<Listed<Inst>>) -> Result<Vec<Step>, NoMemory>
    requires { length insts.now ≤ MOST_INSTS }
    ensures { IfOk result (λ steps. steps.items ≡ steps_of insts.now) }
{
    let mut steps = Vec::new(alloc);
    for place in 0..insts.len() {
        steps.push(Step {
            place: place as u32,
            of: insts.at(place).of,
        })?;
    }
    Ok(steps)
}

/// The instances of contents, with their places; none of a leaf.
fn steps_in(alloc: Global, contents: Option<&Contents>) -> Result<Vec<Step>, NoMemory>
    requires { IfSome contents (λ inside. HasLimits inside.now) }
    ensures { IfOk result (λ steps. steps.items ≡ steps_of (insts_in (option_copied contents.entry))) }
{
    match contents {
        Some(inside) => steps_of(alloc, &inside.insts),
        None => Ok(Vec::new(alloc)),
    }
}

/// The instances of a cell, with their places.
#[tactic(auto, using(crate::proofs::Instances::steps_found, eco_reads::proofs::Reading::read_some))]
fn steps_at<C: Cells>(alloc: Global, cells: &mut C, at: CellId) -> Result<Vec<Step>, NoMemory>
    ensures found { IfOk result (λ steps. steps.items ≡ steps_of (insts_at (C.state cells.old).design at)) }
    ensures some { HasReadSome (C.state cells.old) (C.state cells.new) }
{
    steps_in(alloc, cells.contents(at)?)
}

/// Puts a step on the list where it leads to a block.
fn add_block(blocks: &mut Vec<Step>, block: bool, step: Step) -> Result<(), NoMemory>
    ensures { OnOk result (blocks.new.items ≡ blocks.old.items ++ cond block (step ∷ []) []) }
{
    if block {
        blocks.push(step)?;
    }
    Ok(())
}

/// Those of some steps that lead to blocks.
fn blocks_of<C: Cells>(alloc: Global, cells: &mut C, steps: &[Step]) -> Result<Vec<Step>, NoMemory>
    ensures found { IfOk result (λ blocks. blocks.items ≡ filter (λ step. is_block (C.state cells.old).design step.of) steps.now) }
    ensures some { HasReadSome (C.state cells.old) (C.state cells.new) }
{
    let mut made = Vec::new(alloc);
    for place in 0..steps.len() {
        let step = step_at(steps, place);
        let Ok(block) = read_cell(cells, step.of) else {
            return Err(NoMemory);
        };
        add_block(&mut made, block, step)?;
    }
    Ok(made)
}

/// The instances of a cell that are of blocks, in order, each with its place among all instances. It looks into the cell, and
/// at the cell of each instance.
pub fn block_kids<C: Cells>(alloc: Global, cells: &mut C, at: CellId) -> Result<Row<Step>, NoMemory>
    ensures found { IfOk result (λ kids. kids ≡ kids_of (C.state cells.old).design at) }
    ensures some { HasReadSome (C.state cells.old) (C.state cells.new) }
{
    let steps = steps_at(alloc, cells, at)?;
    let kids = blocks_of(alloc, cells, steps.as_slice())?;
    Ok(Row::of(kids))
}
