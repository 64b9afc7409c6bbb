//! The cells at and below a top, with the cells of their instances first.
ghost use Rattle.std.specs.Prelude.{◌≡◌, ◌++◌, [], IfOk, OnOk, IsSome, filter};
ghost use Rattle.netlist_schema.specs.Hierarchy.{IsCell, insts_at};
ghost use Rattle.netlist_schema.specs.Types.{CellId as Id};
ghost use Rattle.netlist_schema.specs.Valid.{IsValid};
ghost use Rattle.netlist_order_spec.specs.After.{AllAfter};
ghost use Rattle.flat_cells.specs.Below.{AreCells, AreCellsBelow, ComesBehind, cells_of};
ghost use Rattle.flat_cells.specs.Marks.{AreInstsMarked, AreMarkedBelow, is_marked, mark_at};

use crate::marks::CellMarks;
use flat_lookup::insts_at;
use netlist_order::cell_order;
use netlist_schema::{CellId, LibId, NoMemory, Shown};
use std::alloc::Global;

/// Adds the cells of a library, each behind the cells of its instances in it.
fn add_library<S: Shown>(
    alloc: Global,
    design: &S,
    lib: LibId,
    cells: &mut Vec<CellId>,
) -> Result<(), NoMemory>
    ensures { OnOk result (cells.new.items ≡ cells.old.items ++ cells_of (S.design design.now) lib) }
{
    let order = cell_order(alloc, design, lib)?;
    for slot in order.as_slice() {
        cells.push(CellId { lib, slot: *slot })?;
    }
    Ok(())
}

/// The cells of the design, each behind the cells of its instances.
fn list_cells<S: Shown>(alloc: Global, design: &S) -> Result<Vec<CellId>, NoMemory>
    ensures cells { IfOk result (λ cells. AreCells (S.design design.now) cells.items) }
    ensures valid { IsValid (S.design design.now) }
{
    let mut cells = Vec::new(alloc);
    for lib in 0..design.lib_count() {
        add_library(alloc, design, LibId(lib), &mut cells)?;
    }
    Ok(cells)
}

/// Marks the cells of a cell's instances.
fn mark_children<S: Shown>(design: &S, cell: CellId, marks: &mut CellMarks)
    ensures { AreInstsMarked (insts_at (S.design design.now) cell) marks.old marks.new }
{
    let insts = insts_at(design, cell);
    for place in 0..insts.len() {
        marks.set(insts.at(place).of);
    }
}

/// Marks what is below the cells that are marked, where each cell stands behind the cells of its instances.
fn mark_below<S: Shown>(design: &S, cells: &[CellId], marks: &mut CellMarks)
    requires behind { AllAfter (ComesBehind (S.design design.now)) [] cells.now }
    requires room { (c : Id) → IsCell (S.design design.now) c → IsSome (mark_at marks.old c) }
    requires valid { IsValid (S.design design.now) }
    ensures { AreMarkedBelow (S.design design.now) cells.now marks.old marks.new }
{
    for passed in 0..cells.len() {
        let cell = cells[cells.len() - 1 - passed];
        if marks.has(cell) {
            mark_children(design, cell, marks);
        }
    }
}

/// Those of the cells that are marked.
fn list_marked(alloc: Global, cells: &[CellId], marks: &CellMarks) -> Result<Vec<CellId>, NoMemory>
    ensures { IfOk result (λ found. found.items ≡ filter (is_marked marks.now) cells.now) }
{
    let mut found = Vec::new(alloc);
    for cell in cells {
        if marks.has(*cell) {
            found.push(*cell)?;
        }
    }
    Ok(found)
}

/// The cells at or below the top, which is a cell of the design: each once, behind the cells of its instances. The one error is that
/// an allocation was refused.
///
/// It takes time and memory in proportion to the cells and instances of the design, times a logarithm of the number of cells.
pub fn cells_below<S: Shown>(
    alloc: Global,
    design: &S,
    top: CellId,
) -> Result<Vec<CellId>, NoMemory>
    requires { IsCell (S.design design.now) top }
    ensures { IfOk result (λ cells. AreCellsBelow (S.design design.now) top cells.items) }
{
    let cells = list_cells(alloc, design)?;
    let mut marks = CellMarks::none(alloc, design)?;
    marks.set(top);
    mark_below(design, cells.as_slice(), &mut marks);
    list_marked(alloc, cells.as_slice(), &marks)
}
