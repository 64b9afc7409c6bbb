//! The making of an index.
ghost use Rattle.std.specs.Prelude.{◌≡◌, ◌≤◌, IfOk, OnOk, length};
ghost use Rattle.netlist_schema.specs.declared.limits.TheConstants.{MOST_INSTS};
ghost use Rattle.used_spec.specs.Uses.{all_placed, count_in, ids_of, placed_in, placed_in_all};
ghost use Rattle.where_used.specs.Index.{HasAdded, blank_index, blank_row, with_use, with_use_in};

use flat_lookup::insts_at;
use netlist_schema::{CellId, Inst, LibId, Listed, NoMemory, PartsRef, Row, Shown};
use std::alloc::Global;
use used_spec::UsedAt;

/// So many empty lists.
fn blank_cells(alloc: Global, count: u32) -> Result<Row<Row<UsedAt>>, NoMemory>
    ensures { IfOk result (λ cells. cells ≡ blank_row count) }
{
    let mut cells = Vec::new(alloc);
    for _ in 0..count {
        cells.push(Row::of(Vec::new(alloc)))?;
    }
    Ok(Row::of(cells))
}

/// An empty list for each cell of a design.
pub fn blank<S: Shown>(alloc: Global, design: &S) -> Result<Vec<Row<Row<UsedAt>>>, NoMemory>
    ensures { IfOk result (λ made. made.items ≡ blank_index (S.design design.now)) }
{
    let mut libs = Vec::new(alloc);
    for lib in 0..design.lib_count() {
        libs.push(blank_cells(alloc, design.cell_count(LibId(lib)))?)?;
    }
    Ok(libs)
}

/// Adds a use to the list at a place, where there is one. Where memory is refused, the lists stay.
fn add_to(
    alloc: Global,
    cells: &mut Row<Row<UsedAt>>,
    slot: u32,
    at: UsedAt,
) -> Result<(), NoMemory>
    ensures { OnOk result (cells.new ≡ with_use_in slot at cells.old) }
{
    let slot = slot as usize;
    if slot >= cells.as_slice().len() {
        return Ok(());
    }
    let mut users = cells.replace(slot, Row::of(Vec::new(alloc)));
    users.push(at)?;
    cells.set(slot, users);
    Ok(())
}

/// Adds a use of a cell, where the index has the cell.
#[tactic(auto, using(edit_cells::proofs::Patches::changed_at_end, edit_cells::proofs::Patches::changed_at_place))]
fn add_use(
    alloc: Global,
    index: &mut Vec<Row<Row<UsedAt>>>,
    of: CellId,
    at: UsedAt,
) -> Result<(), NoMemory>
    ensures { OnOk result (index.new.items ≡ with_use of at index.old.items) }
{
    let lib = of.lib.0 as usize;
    if lib >= index.len() {
        return Ok(());
    }
    add_to(alloc, &mut index[lib], of.slot, at)
}

/// Adds the uses that the instances of a cell's contents are.
fn add_insts(
    alloc: Global,
    index: &mut Vec<Row<Row<UsedAt>>>,
    cell: CellId,
    insts: &PartsRef<'_, Listed<Inst>>,
) -> Result<(), NoMemory>
    requires { length insts.now ≤ MOST_INSTS }
    ensures { OnOk result (HasAdded index.old.items index.new.items (placed_in cell insts.now)) }
{
    for place in 0..insts.len() {
        let at = UsedAt {
            cell,
            inst: place as u32,
        };
        add_use(alloc, index, insts.at(place).of, at)?;
    }
    Ok(())
}

/// Adds those in the cells of a library.
fn add_library<S: Shown>(
    alloc: Global,
    index: &mut Vec<Row<Row<UsedAt>>>,
    design: &S,
    lib: u32,
) -> Result<(), NoMemory>
    ensures { OnOk result (HasAdded index.old.items index.new.items (placed_in_all (S.design design.now) (ids_of lib (count_in (S.design design.now) lib)))) }
{
    for slot in 0..design.cell_count(LibId(lib)) {
        let cell = CellId {
            lib: LibId(lib),
            slot,
        };
        add_insts(alloc, index, cell, &insts_at(design, cell))?;
    }
    Ok(())
}

/// Adds those in all cells of a design.
pub fn add_all<S: Shown>(
    alloc: Global,
    index: &mut Vec<Row<Row<UsedAt>>>,
    design: &S,
) -> Result<(), NoMemory>
    ensures { OnOk result (HasAdded index.old.items index.new.items (all_placed (S.design design.now))) }
{
    for lib in 0..design.lib_count() {
        add_library(alloc, index, design, lib)?;
    }
    Ok(())
}
