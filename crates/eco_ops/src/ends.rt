//! Operations on ends.
ghost use Rattle.std.specs.Prelude.{◌≡◌, ◌<◌, ◌⊎◌, None, IfOk, MatchResult, Option, Some, option_map, option_and_then};
ghost use Rattle.edit_rules_spec.specs.Seen.{contents_at};
ghost use Rattle.edit_cells.specs.Parts.{IsInside};
ghost use Rattle.edit_cells.specs.State.{HasRead, HasReadSome};
ghost use Rattle.eco_reads.specs.Outcome.{IsDoneOrRefused};
ghost use Rattle.eco_ops.specs.Ends.{IsFaceAt, cell_of_end, end_ports_at, port_in, seen_port};

use crate::end_plans::{PortAt, cell_of_end, plan_cut, plan_join, port_of};
use eco_reads::{OpError, put_plan, read_named};
use edit_cells::Cells;
use edit_spec::{CellName, EndName, Op, Reply};
use netlist_schema::{CellId, Ident, NoMemory};
use std::alloc::Global;

/// Reads the port of an end of a cell.
fn read_port<C: Cells>(cells: &mut C, id: CellId, end: &EndName) -> Result<Option<PortAt>, NoMemory>
    ensures found { IfOk result (λ port. let d = (C.state cells.old).design in option_and_then (port_in end.now.port) (end_ports_at d id end.now.inst) ≡ option_map seen_port port) }
    ensures reads { MatchResult result (λ _. HasRead (C.state cells.old) (C.state cells.new) (λ o. IsInside id o ⊎ IsFaceAt (cell_of_end (contents_at (C.state cells.old).design id) id end.now.inst) o)) (λ _. HasReadSome (C.state cells.old) (C.state cells.new)) }
{
    let Some(of) = cell_of_end(cells.contents(id)?, id, &end.inst) else {
        return Ok(None);
    };
    Ok(port_of(cells.face(of)?, &end.port))
}

/// Adds an end to a net.
pub(crate) fn join<C: Cells>(
    alloc: Global,
    cells: &mut C,
    name: &CellName,
    net: &Ident,
    end: &EndName,
) -> Result<Reply, OpError>
    ensures { IsDoneOrRefused result (C.state cells.old) (C.state cells.new) (Op.Join name.now net.now end.now) }
{
    let id = read_named(cells, name)?;
    let port = read_port(cells, id, end)?;
    let plan = plan_join(alloc, cells.contents(id)?, port, net, end)?;
    put_plan(alloc, cells, id, plan, None)
}

/// Removes an end from its net.
pub(crate) fn cut<C: Cells>(
    alloc: Global,
    cells: &mut C,
    name: &CellName,
    end: &EndName,
) -> Result<Reply, OpError>
    ensures { IsDoneOrRefused result (C.state cells.old) (C.state cells.new) (Op.Cut name.now end.now) }
{
    let id = read_named(cells, name)?;
    let port = read_port(cells, id, end)?;
    let plan = plan_cut(alloc, cells.contents(id)?, port, end)?;
    put_plan(alloc, cells, id, plan, None)
}
