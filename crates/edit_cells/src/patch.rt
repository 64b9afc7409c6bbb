//! Copies of libraries with changes of their cells.
ghost use Rattle.std.specs.Prelude.{◌≡◌, IfOk, OnOk, slice_get};
ghost use Rattle.std.specs.Option.{option_copied};
ghost use Rattle.netlist_schema.specs.Change.{body_with, with_inst_put, with_net_put};
ghost use Rattle.netlist_schema.specs.Design.{Design};
ghost use Rattle.edit_rules_spec.specs.Edit.{changed_at, edited, with_contents, with_properties};
ghost use Rattle.edit_cells.specs.Change.{cell_edits};
ghost use Rattle.edit_cells.specs.Patch.{body_after, cells_after, lib_after, place_of};

use crate::change::CellChange;
use netlist_schema::{
    CellBody, Contents, Copied, Inst, Lib, Listed, Net, NoMemory, Property, Row, Shared,
};
use std::alloc::Global;

/// The body with other contents.
fn with_contents(alloc: Global, body: &CellBody, contents: &Contents) -> Result<CellBody, NoMemory>
    ensures { IfOk result (λ made. made ≡ with_contents contents.now body.now) }
{
    let mut made = body.copy(alloc)?;
    if made.contents.is_some() {
        made.contents = Some(Shared::of(alloc, contents.copy(alloc)?)?);
    }
    Ok(made)
}

/// The body with other properties of its own.
fn with_properties(
    alloc: Global,
    body: &CellBody,
    properties: &Row<Property>,
) -> Result<CellBody, NoMemory>
    ensures { IfOk result (λ made. made ≡ with_properties properties.now body.now) }
{
    let mut made = body.copy(alloc)?;
    made.properties = properties.copy(alloc)?;
    Ok(made)
}

/// Puts a net at a place in these contents, or behind the last.
fn put_net(alloc: Global, contents: &mut Contents, place: usize, net: &Net) -> Result<(), NoMemory>
    ensures { OnOk result (contents.new ≡ with_net_put place net.now contents.old) }
{
    let net = Listed::of(alloc, net.copy(alloc)?)?;
    if place < contents.nets.len() {
        return contents.nets.put(alloc, place, net);
    }
    contents.nets.push(alloc, net)
}

/// Puts an instance at a place in these contents, or behind the last.
fn put_inst(
    alloc: Global,
    contents: &mut Contents,
    place: usize,
    inst: &Inst,
) -> Result<(), NoMemory>
    ensures { OnOk result (contents.new ≡ with_inst_put place inst.now contents.old) }
{
    let inst = Listed::of(alloc, inst.copy(alloc)?)?;
    if place < contents.insts.len() {
        return contents.insts.put(alloc, place, inst);
    }
    contents.insts.push(alloc, inst)
}

/// The body with a net put in its contents, where it has any.
fn with_net(alloc: Global, body: &CellBody, place: u32, net: &Net) -> Result<CellBody, NoMemory>
    ensures { IfOk result (λ made. made ≡ body_with (with_net_put place net.now) body.now) }
{
    let mut made = body.copy(alloc)?;
    if let Some(contents) = &body.contents {
        let mut own = contents.get().copy(alloc)?;
        put_net(alloc, &mut own, place as usize, net)?;
        made.contents = Some(Shared::of(alloc, own)?);
    }
    Ok(made)
}

/// The body with an instance put in its contents, where it has any.
fn with_inst(alloc: Global, body: &CellBody, place: u32, inst: &Inst) -> Result<CellBody, NoMemory>
    ensures { IfOk result (λ made. made ≡ body_with (with_inst_put place inst.now) body.now) }
{
    let mut made = body.copy(alloc)?;
    if let Some(contents) = &body.contents {
        let mut own = contents.get().copy(alloc)?;
        put_inst(alloc, &mut own, place as usize, inst)?;
        made.contents = Some(Shared::of(alloc, own)?);
    }
    Ok(made)
}

/// A cell that is there, after a change.
fn body_after(alloc: Global, body: &CellBody, change: &CellChange) -> Result<CellBody, NoMemory>
    ensures { IfOk result (λ made. made ≡ body_after change.now body.now) }
{
    match change {
        CellChange::Fresh { .. } => body.copy(alloc),
        CellChange::Face { properties, .. } => with_properties(alloc, body, properties),
        CellChange::Inner { contents, .. } => with_contents(alloc, body, contents),
        CellChange::Net { place, net, .. } => with_net(alloc, body, *place, net),
        CellChange::Inst { place, inst, .. } => with_inst(alloc, body, *place, inst),
    }
}

/// The cell at a place.
fn cell_at(cells: &Row<CellBody>, slot: u32) -> Option<&CellBody>
    ensures { option_copied result ≡ slice_get cells.now slot }
{
    cells.as_slice().get(slot as usize)
}

/// Changes the cell at a place, where there is one.
#[tactic(auto, using(crate::proofs::Patches::set_changed, crate::proofs::Patches::none_changed))]
fn change_cell(
    alloc: Global,
    cells: &mut Row<CellBody>,
    slot: u32,
    change: &CellChange,
) -> Result<(), NoMemory>
    ensures { OnOk result (cells.new ≡ changed_at (body_after change.now) slot cells.old) }
{
    let Some(body) = cell_at(cells, slot) else {
        return Ok(());
    };
    let made = body_after(alloc, body, change)?;
    cells.set(slot as usize, made);
    Ok(())
}

/// Changes the cells of a library.
fn change_cells(
    alloc: Global,
    cells: &mut Row<CellBody>,
    change: &CellChange,
) -> Result<(), NoMemory>
    ensures { OnOk result (cells.new ≡ cells_after change.now cells.old) }
{
    match change {
        CellChange::Fresh { body, .. } => cells.push(body.copy(alloc)?),
        CellChange::Face { id, .. } => change_cell(alloc, cells, id.slot, change),
        CellChange::Inner { id, .. } => change_cell(alloc, cells, id.slot, change),
        CellChange::Net { id, .. } => change_cell(alloc, cells, id.slot, change),
        CellChange::Inst { id, .. } => change_cell(alloc, cells, id.slot, change),
    }
}

/// The place of the library of a change.
fn place(change: &CellChange) -> usize
    ensures { result ≡ place_of change.now }
{
    match change {
        CellChange::Fresh { id, .. } => id.lib.0 as usize,
        CellChange::Face { id, .. } => id.lib.0 as usize,
        CellChange::Inner { id, .. } => id.lib.0 as usize,
        CellChange::Net { id, .. } => id.lib.0 as usize,
        CellChange::Inst { id, .. } => id.lib.0 as usize,
    }
}

/// Changes a cell of one of these libraries.
#[tactic(auto, using(crate::proofs::Patches::changed_at_end, crate::proofs::Patches::changed_at_place))]
fn change_libs(alloc: Global, libs: &mut Vec<Lib>, change: &CellChange) -> Result<(), NoMemory>
    ensures { IfOk result (λ _. libs.new.items ≡ changed_at (lib_after change.now) (place_of change.now) libs.old.items) }
{
    let place = place(change);
    if place >= libs.len() {
        return Ok(());
    }
    change_cells(alloc, &mut libs[place].cells, change)?;
    Ok(())
}

/// Copies of the libraries of a design, with changes made one after the other.
pub fn patched(alloc: Global, libs: &Row<Lib>, changes: &[CellChange]) -> Result<Row<Lib>, NoMemory>
    ensures { IfOk result (λ made. (d : Design) → d.libs ≡ libs.now → edited d (cell_edits d changes.now) ≡ record d { libs = made }) }
{
    let mut made = libs.copy(alloc)?.into_vec();
    for change in changes {
        change_libs(alloc, &mut made, change)?;
    }
    Ok(Row::of(made))
}
