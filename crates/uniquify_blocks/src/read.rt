//! Cells that are read as a whole.
ghost use Rattle.std.specs.Prelude.{◌≡◌, IfOk, MatchResult, is_some, option_and_then};
ghost use Rattle.std.specs.Option.{option_copied};
ghost use Rattle.netlist_schema.specs.declared.ids.Object.TheVariants.{Directory};
ghost use Rattle.uniquify_spec.specs.Blocks.{is_block};
ghost use Rattle.uniquify_spec.specs.Parts.{IsPartOf};
ghost use Rattle.edit_cells.specs.State.{HasRead, HasReadSome};
ghost use Rattle.uniquify_blocks.specs.ForBlocks.{IsForBlock};

use edit_cells::Cells;
use netlist_schema::{CellBody, CellId, LibId, NoMemory};

/// Whether the cell is a block.
fn has_contents(body: Option<&CellBody>) -> bool
    ensures { result ≡ is_some (option_and_then (λ b. b.contents) (option_copied body.entry)) }
{
    match body {
        Some(body) => body.contents.is_some(),
        None => false,
    }
}

/// Reads a cell, inside and out; whether it is a block.
pub fn read_cell<C: Cells>(cells: &mut C, id: CellId) -> Result<bool, NoMemory>
    ensures block { IfOk result (λ block. block ≡ is_block (C.state cells.old).design id) }
    ensures reads { MatchResult result (λ _. HasRead (C.state cells.old) (C.state cells.new) (IsPartOf id)) (λ _. HasReadSome (C.state cells.old) (C.state cells.new)) }
{
    Ok(has_contents(cells.cell(id)?))
}

/// Reads the directory of a library.
#[tactic(auto, using(eco_reads::proofs::Reading::read_some))]
fn read_directory<C: Cells>(cells: &mut C, lib: LibId) -> Result<(), NoMemory>
    ensures { MatchResult result (λ _. HasRead (C.state cells.old) (C.state cells.new) (λ o. o ≡ Directory lib)) (λ _. C.state cells.new ≡ C.state cells.old) }
{
    match cells.count(lib) {
        Ok(_count) => Ok(()),
        Err(refused) => Err(refused),
    }
}

/// Reads a cell, inside and out, and the directory of its library where it is a block; whether it is one.
pub(crate) fn read_block<C: Cells>(cells: &mut C, id: CellId) -> Result<bool, NoMemory>
    ensures block { IfOk result (λ block. block ≡ is_block (C.state cells.old).design id) }
    ensures reads { MatchResult result (λ _. HasRead (C.state cells.old) (C.state cells.new) (IsForBlock (C.state cells.old).design id)) (λ _. HasReadSome (C.state cells.old) (C.state cells.new)) }
{
    let block = read_cell(cells, id)?;
    if block {
        read_directory(cells, id.lib)?;
        return Ok(block);
    }
    Ok(block)
}
