//! Copies of operations.
ghost use Rattle.std.specs.Prelude.{◌≡◌, IfOk, OnOk};
ghost use Rattle.netlist_schema.specs.Ident.{IsIdentifier};
ghost use Rattle.edit_spec.specs.Typed.{IsTypedOp, IsTypedPortDecl};

use crate::ops::{Op, PortDecl, Target};
use edit_rules_spec::{CellName, EndName};
use netlist_schema::{Copied, Ident, NoMemory, Property, Row};
use std::alloc::Global;

impl Copied for PortDecl {
    ghost typed = { IsTypedPortDecl };

    fn copy(&self, alloc: Global) -> Result<PortDecl, NoMemory> {
        Ok(PortDecl {
            name: self.name.copy(alloc)?,
            direction: self.direction,
            array: self.array.copy(alloc)?,
        })
    }
}

impl Copied for Target {
    ghost typed = { λ _. Unit {0} };

    fn copy(&self, alloc: Global) -> Result<Target, NoMemory> {
        match self {
            Target::Whole => Ok(Target::Whole),
            Target::Inst(name) => Ok(Target::Inst(name.copy(alloc)?)),
            Target::Net(name) => Ok(Target::Net(name.copy(alloc)?)),
        }
    }
}

/// Copies of a cell's name and of a name in the cell. The one error is that an allocation was refused.
fn in_cell(cell: &CellName, name: &Ident, alloc: Global) -> Result<(CellName, Ident), NoMemory>
    ensures same { IfOk result (λ made. made ≡ (cell.now, name.now)) }
    ensures typed { OnOk result (IsIdentifier name.now) }
{
    Ok((cell.copy(alloc)?, name.copy(alloc)?))
}

/// A copy of the addition of a cell. Here and below, the one error is that an allocation was refused.
fn more_cells(
    cell: &CellName,
    leaf: bool,
    ports: &Row<PortDecl>,
    alloc: Global,
) -> Result<Op, NoMemory>
    ensures same { IfOk result (λ made. made ≡ Op.AddCell cell.now leaf ports.now) }
    ensures typed { OnOk result (IsTypedOp (Op.AddCell cell.now leaf ports.now)) }
{
    let cell = cell.copy(alloc)?;
    let ports = ports.copy(alloc)?;
    Ok(Op::AddCell { cell, leaf, ports })
}

/// A copy of the addition of an instance.
fn more_insts(cell: &CellName, inst: &Ident, of: &CellName, alloc: Global) -> Result<Op, NoMemory>
    ensures same { IfOk result (λ made. made ≡ Op.AddInst cell.now inst.now of.now) }
    ensures typed { OnOk result (IsTypedOp (Op.AddInst cell.now inst.now of.now)) }
{
    let (cell, inst) = in_cell(cell, inst, alloc)?;
    let of = of.copy(alloc)?;
    Ok(Op::AddInst { cell, inst, of })
}

/// A copy of the addition of an end.
fn more_ends(cell: &CellName, net: &Ident, end: &EndName, alloc: Global) -> Result<Op, NoMemory>
    ensures { IfOk result (λ made. made ≡ Op.Join cell.now net.now end.now) }
{
    let (cell, net) = in_cell(cell, net, alloc)?;
    let end = end.copy(alloc)?;
    Ok(Op::Join { cell, net, end })
}

/// A copy of the removal of an end.
fn fewer_ends(cell: &CellName, end: &EndName, alloc: Global) -> Result<Op, NoMemory>
    ensures { IfOk result (λ made. made ≡ Op.Cut cell.now end.now) }
{
    let cell = cell.copy(alloc)?;
    let end = end.copy(alloc)?;
    Ok(Op::Cut { cell, end })
}

/// A copy of the change of a property.
fn other_property(
    cell: &CellName,
    target: &Target,
    property: &Property,
    alloc: Global,
) -> Result<Op, NoMemory>
    ensures same { IfOk result (λ made. made ≡ Op.SetProp cell.now target.now property.now) }
    ensures typed { OnOk result (IsTypedOp (Op.SetProp cell.now target.now property.now)) }
{
    let cell = cell.copy(alloc)?;
    let target = target.copy(alloc)?;
    let property = property.copy(alloc)?;
    Ok(Op::SetProp {
        cell,
        target,
        property,
    })
}

/// A copy of the change of a note.
fn other_note(path: &Row<Ident>, property: &Property, alloc: Global) -> Result<Op, NoMemory>
    ensures same { IfOk result (λ made. made ≡ Op.SetNote path.now property.now) }
    ensures typed { OnOk result (IsTypedOp (Op.SetNote path.now property.now)) }
{
    let path = path.copy(alloc)?;
    let property = property.copy(alloc)?;
    Ok(Op::SetNote { path, property })
}

/// A copy of the removal of a note.
fn fewer_notes(path: &Row<Ident>, key: &Ident, alloc: Global) -> Result<Op, NoMemory>
    ensures { IfOk result (λ made. made ≡ Op.DropNote path.now key.now) }
{
    let path = path.copy(alloc)?;
    let key = key.copy(alloc)?;
    Ok(Op::DropNote { path, key })
}

impl Copied for Op {
    ghost typed = { IsTypedOp };

    fn copy(&self, alloc: Global) -> Result<Op, NoMemory> {
        match self {
            Op::ShowCell { cell } => Ok(Op::ShowCell {
                cell: cell.copy(alloc)?,
            }),
            Op::ShowNet { cell, net } => {
                let (cell, net) = in_cell(cell, net, alloc)?;
                Ok(Op::ShowNet { cell, net })
            }
            Op::ShowInst { cell, inst } => {
                let (cell, inst) = in_cell(cell, inst, alloc)?;
                Ok(Op::ShowInst { cell, inst })
            }
            Op::AddCell { cell, leaf, ports } => more_cells(cell, *leaf, ports, alloc),
            Op::AddNet { cell, net } => {
                let (cell, net) = in_cell(cell, net, alloc)?;
                Ok(Op::AddNet { cell, net })
            }
            Op::DropNet { cell, net } => {
                let (cell, net) = in_cell(cell, net, alloc)?;
                Ok(Op::DropNet { cell, net })
            }
            Op::AddInst { cell, inst, of } => more_insts(cell, inst, of, alloc),
            Op::DropInst { cell, inst } => {
                let (cell, inst) = in_cell(cell, inst, alloc)?;
                Ok(Op::DropInst { cell, inst })
            }
            Op::Join { cell, net, end } => more_ends(cell, net, end, alloc),
            Op::Cut { cell, end } => fewer_ends(cell, end, alloc),
            Op::SetProp {
                cell,
                target,
                property,
            } => other_property(cell, target, property, alloc),
            Op::SetNote { path, property } => other_note(path, property, alloc),
            Op::DropNote { path, key } => fewer_notes(path, key, alloc),
            Op::Uniquify => Ok(Op::Uniquify),
            Op::UniquePath { path } => Ok(Op::UniquePath {
                path: path.copy(alloc)?,
            }),
            Op::Ungroup { cell, inst } => {
                let (cell, inst) = in_cell(cell, inst, alloc)?;
                Ok(Op::Ungroup { cell, inst })
            }
        }
    }
}
