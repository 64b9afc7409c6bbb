//! Cells whose instances are all of cells that are told.
ghost use Rattle.std.specs.Prelude.{◌≡◌, List, Contains, IfOk, OnOk, true};
ghost use Rattle.std.specs.List.{All};
ghost use Rattle.netlist_schema.specs.Hierarchy.{IsCell, insts_at};
ghost use Rattle.netlist_schema.specs.Types.{CellId as Id};
ghost use Rattle.netlist_schema.specs.Valid.{IsValid};
ghost use Rattle.flat_cells.specs.Marks.{is_marked};
ghost use Rattle.par_classes.specs.Telling.{IsTelling, IsTold};

use crate::told::{Telling, ToldCell, take_one};
use flat_cells::CellMarks;
use flat_lookup::insts_at;
use netlist_schema::{CellId, NoMemory, Shown};
use std::alloc::Global;
use std::sync::atomic::{AtomicU64, Ordering};

/// Whether each instance of the cell is of a marked cell.
fn is_ready<S: Shown>(design: &S, marks: &CellMarks, cell: CellId) -> bool
    ensures { result ≡ true → All (λ inst. is_marked marks.now inst.of ≡ true) (insts_at (S.design design.now) cell) }
{
    let insts = insts_at(design, cell);
    for place in 0..insts.len() {
        if !marks.has(insts.at(place).of) {
            return false;
        }
    }
    true
}

/// Tells of the cell, where each of its instances is of a marked cell.
pub fn tell_one<S: Shown>(
    alloc: Global,
    design: &S,
    telling: &mut Telling,
    cell: CellId,
) -> Result<(), NoMemory>
    requires valid { IsValid (S.design design.now) }
    requires there { IsCell (S.design design.now) cell }
    ensures { (below : List Id) → IsTelling (S.design design.now) below telling.old.marks telling.old.classes → Contains below cell
        → OnOk result (IsTelling (S.design design.now) below telling.new.marks telling.new.classes) }
{
    if !is_ready(design, &telling.marks, cell) {
        return Ok(());
    }
    let nets = telling.classes.nets_of(alloc, design, cell)?;
    take_one(telling, ToldCell { cell, nets });
    Ok(())
}

/// Adds what is to be told of the cell, where each of its instances is of a marked cell.
fn add_ready<S: Shown>(
    alloc: Global,
    design: &S,
    telling: &Telling,
    cell: CellId,
    told: &mut Vec<ToldCell>,
) -> Result<(), NoMemory>
    requires valid { IsValid (S.design design.now) }
    requires there { IsCell (S.design design.now) cell }
    ensures { (below : List Id) → IsTelling (S.design design.now) below telling.now.marks telling.now.classes → Contains below cell
        → All (IsTold (S.design design.now) below) told.old.items → OnOk result (All (IsTold (S.design design.now) below) told.new.items) }
{
    if !is_ready(design, &telling.marks, cell) {
        return Ok(());
    }
    let nets = telling.classes.nets_of(alloc, design, cell)?;
    told.push(ToldCell { cell, nets })?;
    Ok(())
}

/// What is to be told of those of these cells whose instances are all of marked cells, and that no other worker takes. The number counts
/// how many were taken.
pub fn tell_some<S: Shown>(
    alloc: Global,
    design: &S,
    telling: &Telling,
    pending: &[CellId],
    taken: &AtomicU64,
) -> Result<Vec<ToldCell>, NoMemory>
    requires valid { IsValid (S.design design.now) }
    requires there { All (IsCell (S.design design.now)) pending.now }
    ensures { (below : List Id) → IsTelling (S.design design.now) below telling.now.marks telling.now.classes → All (Contains below) pending.now
        → IfOk result (λ told. All (IsTold (S.design design.now) below) told.items) }
{
    let mut told = Vec::new(alloc);
    for _ in 0..pending.len() {
        let next = taken.fetch_add(1, Ordering::SeqCst) as usize;
        if next >= pending.len() {
            return Ok(told);
        }
        add_ready(alloc, design, telling, pending[next], &mut told)?;
    }
    Ok(told)
}
