//! Cells of which one thread tells, one after another.
ghost use Rattle.std.specs.Prelude.{[], List, Contains, IfOk, OnOk};
ghost use Rattle.std.specs.List.{All};
ghost use Rattle.netlist_schema.specs.Hierarchy.{IsCell};
ghost use Rattle.netlist_schema.specs.Types.{CellId as Id};
ghost use Rattle.netlist_schema.specs.Valid.{IsValid};
ghost use Rattle.netlist_order_spec.specs.After.{AllAfter};
ghost use Rattle.flat_cells.specs.Below.{ComesBehind};
ghost use Rattle.net_classes.specs.Known.{AreKnown};
ghost use Rattle.par_classes.specs.Telling.{IsTelling};

use crate::ready::tell_one;
use crate::told::Telling;
use net_classes::Classes;
use netlist_schema::{CellId, NoMemory, Shown};
use std::alloc::Global;

/// Whether a cell has no contents.
fn is_leaf<S: Shown>(design: &S, cell: CellId) -> bool {
    match design.cell(cell) {
        Some(body) => body.contents.is_none(),
        None => false,
    }
}

/// Tells of the cell, where it is a leaf.
fn tell_leaf<S: Shown>(
    alloc: Global,
    design: &S,
    telling: &mut Telling,
    cell: CellId,
) -> Result<(), NoMemory>
    requires valid { IsValid (S.design design.now) }
    requires there { IsCell (S.design design.now) cell }
    ensures { (below : List Id) → IsTelling (S.design design.now) below telling.old.marks telling.old.classes → Contains below cell
        → OnOk result (IsTelling (S.design design.now) below telling.new.marks telling.new.classes) }
{
    if !is_leaf(design, cell) {
        return Ok(());
    }
    tell_one(alloc, design, telling, cell)
}

/// Tells of the leaves among these cells.
pub fn tell_leaves<S: Shown>(
    alloc: Global,
    design: &S,
    below: &[CellId],
    telling: &mut Telling,
) -> Result<(), NoMemory>
    requires valid { IsValid (S.design design.now) }
    requires there { All (IsCell (S.design design.now)) below.now }
    requires telling { IsTelling (S.design design.now) below.now telling.old.marks telling.old.classes }
    ensures { OnOk result (IsTelling (S.design design.now) below.now telling.new.marks telling.new.classes) }
{
    for cell in below {
        tell_leaf(alloc, design, telling, *cell)?;
    }
    Ok(())
}

/// Tells of those of these cells that are not marked, each of which stands behind the cells of its instances.
pub fn tell_rest<S: Shown>(
    alloc: Global,
    design: &S,
    below: &[CellId],
    telling: Telling,
) -> Result<Classes, NoMemory>
    requires behind { AllAfter (ComesBehind (S.design design.now)) [] below.now }
    requires there { All (IsCell (S.design design.now)) below.now }
    requires valid { IsValid (S.design design.now) }
    requires telling { IsTelling (S.design design.now) below.now telling.marks telling.classes }
    ensures { IfOk result (AreKnown (S.design design.now) below.now) }
{
    let Telling { classes, marks } = telling;
    let mut classes = classes;
    for cell in below {
        if !marks.has(*cell) {
            let nets = classes.nets_of(alloc, design, *cell)?;
            classes.set(*cell, nets);
        }
    }
    Ok(classes)
}
