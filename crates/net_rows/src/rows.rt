//! `Rows`: the joints of each cell that lead to pins, by the first net inside of their nets.
ghost use Rattle.std.specs.Prelude.{◌≡◌, [], IfOk, IsSome, None, if◌then◌else◌, length, set, slice_get};
ghost use Rattle.std.specs.List.{All};
ghost use Rattle.netlist_schema.specs.Hierarchy.{IsCell};
ghost use Rattle.netlist_schema.specs.Valid.{IsValid};
ghost use Rattle.netlist_order_spec.specs.After.{AllAfter};
ghost use Rattle.flat_cells.specs.Below.{ComesBehind};
ghost use Rattle.net_rows.specs.Rows.{AreListsOf, AreRows, AreSetAt, joints_of, leads, lists_at, lists_of};
ghost use Rattle.netlist_schema.specs.Types.{CellId as Id};
ghost use Rattle.net_ways.specs.Ways.{firsts_in};

use crate::leads::leads;
use crate::lists::{add_to, no_lists};
use ask_spec::Role;
use net_classes::{Classes, Joint};
use netlist_schema::{CellId, LibId, NoMemory, Shown};
use std::alloc::Global;
use std::marker::Model;

/// The joints of one cell: for each net that is the first of those connected with it inside, the joints of these nets that lead to a pin,
/// in order.
#[derive(Drop)]
pub(crate) struct CellRows {
    pub by_first: Vec<Vec<Joint>>,
}

/// The joints of each cell at or below the top that lead to pins which stand in one role at their net, by the first net inside.
pub struct Rows {
    /// By library and place.
    cells: Vec<Vec<CellRows>>,
}

impl Drop for Rows {
    fn drop(self) {
        let Rows { cells: _ } = self;
    }
}

impl Model for Rows {
    ghost use Rattle.std.specs.Prelude.{map};
    ghost use Rattle.net_rows.specs.Rows.{Table, lists_of};

    ghost Value = { Table };

    ghost view = { λ s. map (λ row. map lists_of row.items) s.cells.items };
}

/// The first net inside of a net.
fn first_of(firsts: &[u32], net: u32) -> Option<u32>
    ensures { result ≡ slice_get firsts.now net }
{
    firsts.get(net as usize).copied()
}

/// The first net inside of a joint's net, where the joint leads to a pin.
fn lead_of<S: Shown>(
    design: &S,
    classes: &Classes,
    rows: &Rows,
    role: Role,
    cell: CellId,
    joint: &Joint,
) -> Option<u32>
    ensures { result ≡ (if leads role (S.design design.now) classes.now rows.now cell joint.now then slice_get (firsts_in classes.now cell) joint.now.net else None) }
{
    if leads(design, classes, rows, role, cell, joint) {
        first_of(classes.firsts(cell), joint.net)
    } else {
        None
    }
}

/// The joints of a cell that lead to pins, by the first net inside of their nets.
fn rows_of<S: Shown>(
    alloc: Global,
    design: &S,
    classes: &Classes,
    rows: &Rows,
    role: Role,
    cell: CellId,
) -> Result<CellRows, NoMemory>
    ensures { IfOk result (λ made. AreListsOf role (S.design design.now) classes.now rows.now cell (lists_of made)) }
{
    let mut lists = no_lists(alloc, classes.firsts(cell).len())?;
    let joints = classes.joints(cell);
    for joint in joints {
        let first = lead_of(design, classes, rows, role, cell, joint);
        add_to(&mut lists, first, *joint)?;
    }
    Ok(CellRows { by_first: lists })
}

/// No joints for each of so many cells.
fn blank_row(alloc: Global, count: u32) -> Result<Vec<CellRows>, NoMemory>
    ensures { IfOk result (λ row. length row.items ≡ count) }
{
    let mut row = Vec::new(alloc);
    for _ in 0..count {
        row.push(CellRows {
            by_first: Vec::new(alloc),
        })?;
    }
    Ok(row)
}

/// No joints for any cell of the design.
fn no_rows<S: Shown>(alloc: Global, design: &S) -> Result<Rows, NoMemory>
    ensures { IfOk result (λ rows. (c : Id) → IsCell (S.design design.now) c → IsSome (lists_at rows c)) }
{
    let mut cells = Vec::new(alloc);
    for lib in 0..design.lib_count() {
        let count = design.cell_count(LibId(lib));
        let row = blank_row(alloc, count)?;
        cells.push(row)?;
    }
    Ok(Rows { cells })
}

/// Sets what is kept of the cell at a place of a library.
fn set_in(row: &mut Vec<CellRows>, slot: u32, made: CellRows)
    ensures { row.new.items ≡ set row.old.items slot made }
{
    if (slot as usize) >= row.len() {
        return;
    }
    row[slot as usize] = made;
}

impl Rows {
    /// The rows of a design for pins that stand in one role, by what is known of its cells; these are the cells at and below the top, each
    /// behind those of its instances. The one error is that an allocation was refused.
    ///
    /// It takes time and memory in proportion to cells, nets and ends.
    pub fn of<S: Shown>(
        alloc: Global,
        design: &S,
        classes: &Classes,
        below: &[CellId],
        role: Role,
    ) -> Result<Rows, NoMemory>
        requires behind { AllAfter (ComesBehind (S.design design.now)) [] below.now }
        requires there { All (IsCell (S.design design.now)) below.now }
        requires valid { IsValid (S.design design.now) }
        ensures { IfOk result (AreRows role (S.design design.now) classes.now below.now) }
    {
        let mut rows = no_rows(alloc, design)?;
        for cell in below {
            let made = rows_of(alloc, design, classes, &rows, role, *cell)?;
            rows.set(*cell, made);
        }
        Ok(rows)
    }

    /// Sets what is kept of a cell.
    fn set(&mut self, cell: CellId, made: CellRows)
        ensures { AreSetAt self.old cell (lists_of made) self.new }
    {
        if (cell.lib.0 as usize) >= self.cells.len() {
            return;
        }
        set_in(&mut self.cells[cell.lib.0 as usize], cell.slot, made);
    }

    /// The joints of those nets of a cell whose first net inside this is which lead to pins, by instance, port and bit. Takes no memory.
    pub fn joints(&self, cell: CellId, first: u32) -> &[Joint]
        ensures { result.now ≡ joints_of self.now cell first }
    {
        let Some(row) = self.cells.as_slice().get(cell.lib.0 as usize) else {
            return &[];
        };
        let Some(rows) = row.as_slice().get(cell.slot as usize) else {
            return &[];
        };
        match rows.by_first.as_slice().get(first as usize) {
            Some(joints) => joints.as_slice(),
            None => &[],
        }
    }
}
