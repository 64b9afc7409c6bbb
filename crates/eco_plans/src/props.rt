//! Setting properties.
ghost use Rattle.edit_spec.specs.Typed.{IsTypedOp};
ghost use Rattle.eco_reads.specs.Outcome.{IsDoneOrRefused};

use crate::property_plans::{plan_inst_property, plan_net_property, with_own_property};
use eco_reads::{OpError, put_plan, read_named, write_one};
use edit_cells::{CellChange, Cells};
use edit_spec::{CellName, Op, Reply, Target};
use netlist_schema::{Ident, Property};
use std::alloc::Global;

/// Sets a property of a cell.
fn set_own<C: Cells>(
    alloc: Global,
    cells: &mut C,
    name: &CellName,
    property: &Property,
) -> Result<Reply, OpError>
    requires { IsTypedOp (Op.SetProp name.now Target.Whole property.now) }
    ensures { IsDoneOrRefused result (C.state cells.old) (C.state cells.new) (Op.SetProp name.now Target.Whole property.now) }
{
    let id = read_named(cells, name)?;
    let made = with_own_property(alloc, cells.face(id)?, property)?;
    let change = CellChange::Face {
        id,
        properties: made,
    };
    write_one(alloc, cells, change, None)?;
    Ok(Reply::Done)
}

/// Sets a property of an instance.
fn set_of_inst<C: Cells>(
    alloc: Global,
    cells: &mut C,
    name: &CellName,
    inst: &Ident,
    property: &Property,
) -> Result<Reply, OpError>
    requires { IsTypedOp (Op.SetProp name.now (Target.Inst inst.now) property.now) }
    ensures { IsDoneOrRefused result (C.state cells.old) (C.state cells.new) (Op.SetProp name.now (Target.Inst inst.now) property.now) }
{
    let id = read_named(cells, name)?;
    let plan = plan_inst_property(alloc, cells.contents(id)?, inst, property)?;
    put_plan(alloc, cells, id, plan, None)
}

/// Sets a property of a net.
fn set_of_net<C: Cells>(
    alloc: Global,
    cells: &mut C,
    name: &CellName,
    net: &Ident,
    property: &Property,
) -> Result<Reply, OpError>
    requires { IsTypedOp (Op.SetProp name.now (Target.Net net.now) property.now) }
    ensures { IsDoneOrRefused result (C.state cells.old) (C.state cells.new) (Op.SetProp name.now (Target.Net net.now) property.now) }
{
    let id = read_named(cells, name)?;
    let plan = plan_net_property(alloc, cells.contents(id)?, net, property)?;
    put_plan(alloc, cells, id, plan, None)
}

/// Sets a property of a cell, or of one of its instances or nets.
pub fn set_prop<C: Cells>(
    alloc: Global,
    cells: &mut C,
    name: &CellName,
    target: &Target,
    property: &Property,
) -> Result<Reply, OpError>
    requires { IsTypedOp (Op.SetProp name.now target.now property.now) }
    ensures { IsDoneOrRefused result (C.state cells.old) (C.state cells.new) (Op.SetProp name.now target.now property.now) }
{
    match target {
        Target::Whole => set_own(alloc, cells, name, property),
        Target::Inst(inst) => set_of_inst(alloc, cells, name, inst, property),
        Target::Net(net) => set_of_net(alloc, cells, name, net, property),
    }
}
