//! Cells with their instances by new ids.
ghost use Rattle.std.specs.Prelude.{◌≡◌, IfOk, option_map};
ghost use Rattle.netlist_schema.specs.Design.{cells_in};
ghost use Rattle.edif_spec.specs.Arranged.{new_cell, new_cells, new_contents, new_inst, new_top};
ghost use Rattle.used_keep.specs.Places.{insts_by, libs_by, row_at};

use crate::places::Places;
use netlist_schema::{
    CellBody, CellId, Contents, Copied, Inst, Lib, LibHead, LibId, Listed, NoMemory, Parts, Row,
    Shared, Shown, TopHead,
};
use std::alloc::Global;

/// A copy of an instance, with its cell by the new id.
fn new_inst(alloc: Global, places: &Places, inst: &Inst) -> Result<Inst, NoMemory>
    ensures { IfOk result (λ made. made ≡ new_inst places.now inst.now) }
{
    Ok(Inst {
        name: inst.name.copy(alloc)?,
        of: places.new_id(inst.of),
        designator: inst.designator.copy(alloc)?,
        properties: inst.properties.copy(alloc)?,
    })
}

/// An instance with its cell by the new id: the same one where that is its id already.
#[tactic(auto, using(crate::proofs::Placing::inst_stays))]
fn kept_inst(alloc: Global, places: &Places, inst: &Listed<Inst>) -> Result<Listed<Inst>, NoMemory>
    ensures { IfOk result (λ made. made ≡ new_inst places.now inst.now) }
{
    if places.new_id(inst.of) == inst.of {
        return inst.share();
    }
    let made = new_inst(alloc, places, inst)?;
    Listed::of(alloc, made)
}

/// Copies of instances, each so.
fn new_insts(
    alloc: Global,
    places: &Places,
    insts: &Parts<Listed<Inst>>,
) -> Result<Parts<Listed<Inst>>, NoMemory>
    ensures { IfOk result (λ made. made ≡ insts_by places.now insts.now) }
{
    let mut made = Vec::new(alloc);
    for inst in insts.iter() {
        made.push(kept_inst(alloc, places, inst)?)?;
    }
    let kept = Parts::of(alloc, made)?;
    Ok(kept)
}

/// A copy of what is inside a cell, where there is anything, with its instances so.
fn new_contents(
    alloc: Global,
    places: &Places,
    contents: &Option<Shared<Contents>>,
) -> Result<Option<Shared<Contents>>, NoMemory>
    ensures { IfOk result (λ made. made ≡ option_map (new_contents places.now) contents.now) }
{
    match contents {
        Some(inside) => {
            let insts = new_insts(alloc, places, &inside.insts)?;
            let nets = inside.nets.copy(alloc)?;
            Ok(Some(Shared::of(alloc, Contents { insts, nets })?))
        }
        None => Ok(None),
    }
}

/// A copy of a cell, with its instances so.
fn new_cell(alloc: Global, places: &Places, body: &CellBody) -> Result<CellBody, NoMemory>
    ensures { IfOk result (λ made. made ≡ new_cell places.now body.now) }
{
    Ok(CellBody {
        name: body.name.copy(alloc)?,
        kind: body.kind,
        properties: body.properties.copy(alloc)?,
        view: body.view.copy(alloc)?,
        view_properties: body.view_properties.copy(alloc)?,
        interface_properties: body.interface_properties.copy(alloc)?,
        ports: body.ports.copy(alloc)?,
        contents: new_contents(alloc, places, &body.contents)?,
    })
}

/// Copies of the cells at these places of a library.
fn new_cells<S: Shown>(
    alloc: Global,
    places: &Places,
    design: &S,
    lib: LibId,
    slots: &[u32],
) -> Result<Row<CellBody>, NoMemory>
    ensures { IfOk result (λ made. made ≡ new_cells places.now (cells_in (S.design design.now) lib) slots.now) }
{
    let mut made = Vec::new(alloc);
    for slot in slots {
        if let Some(body) = design.cell(CellId { lib, slot: *slot }) {
            made.push(new_cell(alloc, places, body)?)?;
        }
    }
    Ok(Row::of(made))
}

/// A library with this head, and the cells that are kept.
fn new_lib<S: Shown>(
    alloc: Global,
    places: &Places,
    design: &S,
    lib: u32,
    head: &LibHead,
) -> Result<Lib, NoMemory>
    ensures { IfOk result (λ made. made ≡ record { head = head.now; cells = new_cells places.now (cells_in (S.design design.now) (record { 0 = lib })) (row_at places.now lib) }) }
{
    Ok(Lib {
        head: head.copy(alloc)?,
        cells: new_cells(alloc, places, design, LibId(lib), places.row(lib))?,
    })
}

/// The libraries, each with the cells that are kept.
pub fn new_libs<S: Shown>(alloc: Global, places: &Places, design: &S) -> Result<Row<Lib>, NoMemory>
    ensures { IfOk result (λ made. made ≡ libs_by (S.design design.now) places.now) }
{
    let mut made = Vec::new(alloc);
    for lib in 0..design.lib_count() {
        if let Some(head) = design.lib(LibId(lib)) {
            made.push(new_lib(alloc, places, design, lib, head)?)?;
        }
    }
    Ok(Row::of(made))
}

/// A copy of the top, with its cell by the new id.
pub fn new_top(alloc: Global, places: &Places, top: &TopHead) -> Result<TopHead, NoMemory>
    ensures { IfOk result (λ made. made ≡ new_top places.now top.now) }
{
    Ok(TopHead {
        name: top.name.copy(alloc)?,
        cell: places.new_id(top.cell),
        properties: top.properties.copy(alloc)?,
    })
}
