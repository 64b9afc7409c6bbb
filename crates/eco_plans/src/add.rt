//! Adding cells.
ghost use Rattle.edit_spec.specs.Typed.{IsTypedOp};
ghost use Rattle.eco_reads.specs.Outcome.{IsDoneOrRefused};

use crate::cell_plans::plan_cell;
use eco_reads::{OpError, write_one};
use edit_cells::{CellChange, Cells};
use edit_spec::{CellName, Op, PortDecl, Reply};
use netlist_schema::{CellId, Row};
use std::alloc::Global;

/// Adds a cell.
pub fn add_cell<C: Cells>(
    alloc: Global,
    cells: &mut C,
    name: &CellName,
    leaf: bool,
    ports: &Row<PortDecl>,
) -> Result<Reply, OpError>
    requires { IsTypedOp (Op.AddCell name.now leaf ports.now) }
    ensures { IsDoneOrRefused result (C.state cells.old) (C.state cells.new) (Op.AddCell name.now leaf ports.now) }
{
    let Some(lib) = cells.lib_named(&name.lib) else {
        return Err(OpError::Refused(Reply::NoLib));
    };
    let free = cells.name_free(lib, &name.cell)?;
    let count = cells.count(lib)?;
    let body = plan_cell(alloc, free, count, &name.cell, leaf, ports.as_slice())?;
    let id = CellId { lib, slot: count };
    write_one(alloc, cells, CellChange::Fresh { id, body }, None)?;
    Ok(Reply::Done)
}
