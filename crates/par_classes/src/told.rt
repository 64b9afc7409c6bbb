//! What is told of cells so far.
ghost use Rattle.std.specs.Prelude.{List, IfOk, OnOk};
ghost use Rattle.std.specs.List.{All};
ghost use Rattle.netlist_schema.specs.Design.{Design};
ghost use Rattle.netlist_schema.specs.Types.{CellId as Id};
ghost use Rattle.par_classes.specs.Telling.{IsTelling, IsTold};

use flat_cells::CellMarks;
use net_classes::{CellNets, Classes};
use netlist_schema::{CellId, NoMemory};

/// What is told of cells so far, and marks of cells that are told.
#[derive(Drop)]
pub struct Telling {
    pub classes: Classes,
    pub marks: CellMarks,
}

/// A cell, and what is to be told of it.
#[derive(Drop)]
pub struct ToldCell {
    pub cell: CellId,
    pub nets: CellNets,
}

/// Tells it of one cell more.
pub fn take_one(telling: &mut Telling, told: ToldCell)
    ensures { (d : Design) (below : List Id) → IsTelling d below telling.old.marks telling.old.classes → IsTold d below told
        → IsTelling d below telling.new.marks telling.new.classes }
{
    let ToldCell { cell, nets } = told;
    telling.classes.set(cell, nets);
    telling.marks.set(cell);
}

/// Tells it of the cells of one worker.
fn take_part(telling: &mut Telling, part: Vec<ToldCell>)
    ensures { (d : Design) (below : List Id) → IsTelling d below telling.old.marks telling.old.classes → All (IsTold d below) part.items
        → IsTelling d below telling.new.marks telling.new.classes }
{
    for told in part {
        take_one(telling, told);
    }
}

/// Tells it of the cells of all workers: of how many.
pub fn take_parts(
    telling: &mut Telling,
    parts: Vec<Result<Vec<ToldCell>, NoMemory>>,
) -> Result<usize, NoMemory>
    ensures { (d : Design) (below : List Id) → IsTelling d below telling.old.marks telling.old.classes
        → All (λ part. IfOk part (λ told. All (IsTold d below) told.items)) parts.items
        → OnOk result (IsTelling d below telling.new.marks telling.new.classes) }
{
    let mut count = 0usize;
    for part in parts {
        let told = part?;
        count = count.saturating_add(told.len());
        take_part(telling, told);
    }
    Ok(count)
}
