//! The places of the cells that are kept.
ghost use Rattle.std.specs.Prelude.{◌≡◌, ◌≤◌, IfOk, length};
ghost use Rattle.std.specs.List.{list_any};
ghost use Rattle.std.specs.BTreeSet.{contains};
ghost use Rattle.netlist_schema.specs.Hierarchy.{IsCell};
ghost use Rattle.netlist_schema.specs.Order.{cell_cmp};
ghost use Rattle.netlist_schema.specs.Types.{CellId as Id};
ghost use Rattle.netlist_schema.specs.declared.limits.TheConstants.{MOST_CELLS};
ghost use Rattle.edif_spec.specs.Arranged.{new_id, place_in};
ghost use Rattle.edit_rules_spec.specs.Paths.{same_cell};
ghost use Rattle.used_spec.specs.Kept.{kept_places};
ghost use Rattle.used_keep.specs.Places.{IsRising, places_by, row_at, slots_by};

use flat_cells::cells_below;
use netlist_schema::{CellId, LibId, NoMemory, Row, Shown, design_is_valid};
use std::alloc::Global;
use std::collections::BTreeSet;
use std::marker::Model;

/// For each library the places of the cells that are kept, in order. Contracts see the lists.
pub struct Places {
    libs: Vec<Row<u32>>,
}

impl Drop for Places {
    fn drop(self) {
        let Places { libs: _ } = self;
    }
}

impl Model for Places {
    ghost use Rattle.std.specs.Prelude.{List, ℕ};
    ghost use Rattle.std.specs.List.{All};
    ghost use Rattle.used_keep.specs.Places.{IsRow};

    ghost Value = { List (List ℕ) };

    ghost view = { λ p. p.libs.items };

    ghost invariant = { λ p. All IsRow p.libs.items };
}

/// These cells, as a set.
fn set_of(alloc: Global, cells: &[CellId]) -> Result<BTreeSet<CellId>, NoMemory>
    ensures { IfOk result (λ set. (id : Id) → contains cell_cmp set id ≡ list_any (λ cell. same_cell cell id) cells.now) }
{
    let mut set = BTreeSet::new(alloc);
    for cell in cells {
        set.insert(*cell)?;
    }
    Ok(set)
}

/// Whether the set has a cell.
fn has(set: &BTreeSet<CellId>, cell: CellId) -> bool
    ensures { result ≡ contains cell_cmp set.now cell }
{
    set.contains(&cell)
}

/// The places in a library of so many cells that the set has.
fn slots(alloc: Global, set: &BTreeSet<CellId>, lib: u32, count: u32) -> Result<Row<u32>, NoMemory>
    ensures { IfOk result (λ row. row ≡ slots_by (contains cell_cmp set.now) lib count) }
{
    let mut slots = Vec::new(alloc);
    for slot in 0..count {
        let cell = CellId {
            lib: LibId(lib),
            slot,
        };
        if has(set, cell) {
            slots.push(slot)?;
        }
    }
    Ok(Row::of(slots))
}

/// The places in each library of a design of the cells that the set has.
fn rows<S: Shown>(
    alloc: Global,
    design: &S,
    set: &BTreeSet<CellId>,
) -> Result<Vec<Row<u32>>, NoMemory>
    ensures { IfOk result (λ rows. rows.items ≡ places_by (S.design design.now) (contains cell_cmp set.now)) }
{
    let mut rows = Vec::new(alloc);
    for lib in 0..design.lib_count() {
        rows.push(slots(alloc, set, lib, design.cell_count(LibId(lib)))?)?;
    }
    Ok(rows)
}

/// The place of a number in a list that rises.
fn place_in(slots: &[u32], slot: u32) -> u32
    requires rising { IsRising slots.now }
    requires few { length slots.now ≤ MOST_CELLS }
    ensures { result ≡ place_in slot slots.now }
{
    match slots.binary_search(&slot) {
        Ok(place) => place as u32,
        Err(_) => slots.len() as u32,
    }
}

impl Places {
    /// The places of the top and the cells below it.
    pub fn of<S: Shown>(alloc: Global, design: &S, top: CellId) -> Result<Places, NoMemory>
        requires { IsCell (S.design design.now) top }
        ensures { IfOk result (λ places. places ≡ kept_places (S.design design.now) top) }
    {
        design_is_valid(design);
        let cells = cells_below(alloc, design, top)?;
        let set = set_of(alloc, cells.as_slice())?;
        let libs = rows(alloc, design, &set)?;
        Ok(Places { libs })
    }

    /// Those in a library.
    pub fn row(&self, lib: u32) -> &[u32]
        ensures { result.now ≡ row_at self.now lib }
    {
        match self.libs.as_slice().get(lib as usize) {
            Some(row) => row.as_slice(),
            None => &[],
        }
    }

    /// The new id of a cell that is kept.
    pub fn new_id(&self, id: CellId) -> CellId
        ensures { result ≡ new_id self.now id }
    {
        match self.libs.as_slice().get(id.lib.0 as usize) {
            Some(row) => CellId {
                lib: id.lib,
                slot: place_in(row.as_slice(), id.slot),
            },
            None => id,
        }
    }
}
