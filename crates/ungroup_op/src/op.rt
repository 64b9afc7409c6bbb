//! The operation.
ghost use Rattle.std.specs.Prelude.{◌≡◌, MatchResult};
ghost use Rattle.edit_spec.specs.declared.ops.Op.TheVariants.{Ungroup};
ghost use Rattle.eco_reads.specs.Done.{IsDone};
ghost use Rattle.eco_reads.specs.Outcome.{IsDoneOrRefused};

use crate::notes::read_notes;
use crate::reads::{read_inst, read_within};
use eco_reads::{OpError, Plan, put_plan, read_named};
use edit_cells::Cells;
use edit_spec::{CellName, Reply};
use netlist_schema::{Ident, NoMemory};
use std::alloc::Global;
use ungroup_plans::{Ungrouped, plan_ungroup};

/// Dissolves the instance. Where memory is refused, the list of objects read may have gone on.
fn try_ungroup<C: Cells>(
    alloc: Global,
    cells: &mut C,
    cell: &CellName,
    inst: &Ident,
) -> Result<Reply, OpError>
    ensures { IsDoneOrRefused result (C.state cells.old) (C.state cells.new) (Ungroup cell.now inst.now) }
{
    let id = read_named(cells, cell)?;
    let read = read_notes(alloc, cells, id, inst)?;
    let of = read_inst(cells, id, inst)?;
    let within = read_within(alloc, cells, of)?;
    let places = read.places.as_slice();
    let notes = read.notes.as_slice();
    let made = plan_ungroup(alloc, cells.contents(id)?, inst, &within, notes, places)?;
    let Ungrouped { contents, notes } = made;
    put_plan(alloc, cells, id, Plan::Whole(contents), notes)
}

/// Dissolves an instance of a cell with contents into the cell that holds it: the reply and the design are those of the definition
/// of the operation; the objects read grow by what it needs, and the objects written by what it writes, both as sets. A reply that
/// refuses changes nothing but the objects read. The one error is that an allocation was refused; design, objects read and objects
/// written are as before then.
///
/// It looks at the contents of the two cells, at the notes and at the cells that their paths reach, and never at the whole design.
/// It takes time in proportion to the two contents, times a logarithm of their names; and for each step of a note's path, to the
/// instances of the cell there.
pub fn ungroup<C: Cells>(
    alloc: Global,
    cells: &mut C,
    cell: &CellName,
    inst: &Ident,
) -> Result<Reply, NoMemory>
    ensures { MatchResult result (IsDone (C.state cells.old) (C.state cells.new) (Ungroup cell.now inst.now)) (λ _. C.state cells.new ≡ C.state cells.old) }
{
    let mark = cells.mark();
    match try_ungroup(alloc, cells, cell, inst) {
        Ok(reply) => Ok(reply),
        Err(OpError::Refused(reply)) => Ok(reply),
        Err(OpError::NoMemory) => {
            cells.back(mark);
            Err(NoMemory)
        }
    }
}
