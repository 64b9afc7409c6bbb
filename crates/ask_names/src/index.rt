//! The orders of all cells.
ghost use Rattle.std.specs.Prelude.{◌≡◌, ◌≤◌, IfOk, length};
ghost use Rattle.std.specs.Option.{option_copied};
ghost use Rattle.netlist_schema.specs.declared.limits.TheConstants.{MOST_PORTS};
ghost use Rattle.ask_names.specs.Places.{ports_at};
ghost use Rattle.ask_names.specs.Orders.{AreOrders, AreOrdersOf, AreRow, orders_in};

use crate::order::order_of;
use flat_lookup::{insts_at, nets_at};
use netlist_schema::{CellId, LibId, NoMemory, Port, Shown, design_is_valid};
use std::alloc::Global;
use std::marker::Model;

/// The places of what a cell has, of each kind in the order of its names.
pub(crate) struct Orders {
    pub insts: Vec<u32>,
    pub nets: Vec<u32>,
    pub ports: Vec<u32>,
}

impl Drop for Orders {
    fn drop(self) {
        let Orders {
            insts: _,
            nets: _,
            ports: _,
        } = self;
    }
}

/// The orders of the cells of a design.
pub(crate) struct Index {
    /// By library and place.
    cells: Vec<Vec<Orders>>,
}

impl Drop for Index {
    fn drop(self) {
        let Index { cells: _ } = self;
    }
}

impl Model for Index {
    ghost use Rattle.std.specs.Prelude.{List, map};
    ghost use Rattle.ask_names.specs.declared.index.Orders.{Orders};

    ghost Value = { List (List Orders) };

    ghost view = { λ s. map (λ row. row.items) s.cells.items };
}

/// The ports of a cell: none where there is no such cell.
pub(crate) fn ports_at<S: Shown>(design: &S, cell: CellId) -> &[Port]
    ensures value { result.now ≡ ports_at (S.design design.now) cell }
    ensures limit { length result.now ≤ MOST_PORTS }
{
    match design.cell(cell) {
        Some(body) => body.ports.as_slice(),
        None => &[],
    }
}

/// The orders of a cell.
fn orders_of<S: Shown>(alloc: Global, design: &S, cell: CellId) -> Result<Orders, NoMemory>
    ensures { IfOk result (AreOrdersOf (S.design design.now) cell) }
{
    design_is_valid(design);
    let insts = order_of(alloc, &insts_at(design, cell))?;
    let nets = order_of(alloc, &nets_at(design, cell))?;
    let ports = order_of(alloc, &ports_at(design, cell))?;
    Ok(Orders { insts, nets, ports })
}

/// The orders of the cells of a library, of which there are so many.
fn row_of<S: Shown>(
    alloc: Global,
    design: &S,
    lib: LibId,
    count: u32,
) -> Result<Vec<Orders>, NoMemory>
    ensures { IfOk result (λ row. AreRow (S.design design.now) lib.0 count row.items) }
{
    let mut row = Vec::new(alloc);
    for slot in 0..count {
        let orders = orders_of(alloc, design, CellId { lib, slot })?;
        row.push(orders)?;
    }
    Ok(row)
}

impl Index {
    /// The orders of all cells of a design.
    pub(crate) fn of<S: Shown>(alloc: Global, design: &S) -> Result<Index, NoMemory>
        ensures { IfOk result (AreOrders (S.design design.now)) }
    {
        let mut cells = Vec::new(alloc);
        for lib in 0..design.lib_count() {
            let count = design.cell_count(LibId(lib));
            let row = row_of(alloc, design, LibId(lib), count)?;
            cells.push(row)?;
        }
        Ok(Index { cells })
    }

    /// The orders of a cell, where they are kept. Takes no memory.
    pub(crate) fn orders(&self, cell: CellId) -> Option<&Orders>
        ensures { option_copied result ≡ orders_in self.now cell }
    {
        match self.cells.as_slice().get(cell.lib.0 as usize) {
            Some(row) => row.as_slice().get(cell.slot as usize),
            None => None,
        }
    }
}
