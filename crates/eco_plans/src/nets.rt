//! Operations on nets.
ghost use Rattle.edit_spec.specs.DropNet.{without_net};
ghost use Rattle.edit_spec.specs.Typed.{IsTypedOp};
ghost use Rattle.eco_reads.specs.Outcome.{IsDoneOrRefused};

use crate::net_plans::{plan_net, without_net};
use eco_reads::{OpError, put_plan, read_named};
use edit_cells::Cells;
use edit_spec::{CellName, Op, Reply};
use netlist_schema::Ident;
use std::alloc::Global;

/// Adds a net without ends.
pub fn add_net<C: Cells>(
    alloc: Global,
    cells: &mut C,
    name: &CellName,
    net: &Ident,
) -> Result<Reply, OpError>
    requires { IsTypedOp (Op.AddNet name.now net.now) }
    ensures { IsDoneOrRefused result (C.state cells.old) (C.state cells.new) (Op.AddNet name.now net.now) }
{
    let id = read_named(cells, name)?;
    let plan = plan_net(alloc, cells.contents(id)?, net)?;
    put_plan(alloc, cells, id, plan, None)
}

/// Removes a net.
pub fn drop_net<C: Cells>(
    alloc: Global,
    cells: &mut C,
    name: &CellName,
    net: &Ident,
) -> Result<Reply, OpError>
    ensures { IsDoneOrRefused result (C.state cells.old) (C.state cells.new) (Op.DropNet name.now net.now) }
{
    let id = read_named(cells, name)?;
    let plan = without_net(alloc, cells.contents(id)?, net)?;
    put_plan(alloc, cells, id, plan, None)
}
