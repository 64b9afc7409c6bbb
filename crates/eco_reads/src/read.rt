//! What an operation reads of the cells that it names.
ghost use Rattle.std.specs.Prelude.{IfOk};
ghost use Rattle.edit_rules_spec.specs.Reading.{IsForName};
ghost use Rattle.netlist_schema.specs.Valid.{IsValid};
ghost use Rattle.edit_cells.specs.State.{ReadsOrFails};
ghost use Rattle.eco_reads.specs.Outcome.{ReadsUnlessNoMemory, UnlessNoMemory};
ghost use Rattle.eco_reads.specs.Plan.{IsNamed};

use crate::op_error::OpError;
use edit_cells::Cells;
use edit_spec::{CellName, Reply};
use netlist_schema::{CellId, NoMemory};

/// The cell with this name, or the refusal where the library or the cell is not there: for an operation that reads more before
/// it is refused.
pub fn find_named<C: Cells>(
    cells: &mut C,
    name: &CellName,
) -> Result<Result<CellId, Reply>, NoMemory>
    ensures found { IfOk result (IsNamed (C.state cells.old).design name.now) }
    ensures valid { IsValid (C.state cells.old).design }
    ensures reads { ReadsOrFails result (C.state cells.old) (C.state cells.new) (IsForName (C.state cells.old).design name.now) }
{
    let Some(lib) = cells.lib_named(&name.lib) else {
        return Ok(Err(Reply::NoLib));
    };
    match cells.find(lib, &name.cell)? {
        Some(id) => Ok(Ok(id)),
        None => Ok(Err(Reply::NoCell)),
    }
}

/// The cell with this name. `Refused` comes where the library or the cell is not there.
pub fn read_named<C: Cells>(cells: &mut C, name: &CellName) -> Result<CellId, OpError>
    ensures found { UnlessNoMemory (IsNamed (C.state cells.old).design name.now) result }
    ensures valid { IsValid (C.state cells.old).design }
    ensures reads { ReadsUnlessNoMemory result (C.state cells.old) (C.state cells.new) (IsForName (C.state cells.old).design name.now) }
{
    match find_named(cells, name)? {
        Ok(id) => Ok(id),
        Err(refusal) => Err(OpError::Refused(refusal)),
    }
}
