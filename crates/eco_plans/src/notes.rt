//! Operations on notes.
ghost use Rattle.std.specs.Prelude.{◌<◌};
ghost use Rattle.edit_spec.specs.Typed.{IsTypedOp};
ghost use Rattle.eco_reads.specs.Outcome.{IsDoneOrRefused};

use crate::note_plans::{with_note, without_note};
use eco_reads::{OpError, leads, put_notes};
use edit_cells::Cells;
use edit_spec::{Op, Reply};
use netlist_schema::{Ident, Property, Row};
use std::alloc::Global;

/// Sets a note.
pub fn set_note<C: Cells>(
    alloc: Global,
    cells: &mut C,
    path: &Row<Ident>,
    property: &Property,
) -> Result<Reply, OpError>
    requires { IsTypedOp (Op.SetNote path.now property.now) }
    ensures { IsDoneOrRefused result (C.state cells.old) (C.state cells.new) (Op.SetNote path.now property.now) }
{
    let Some(top) = cells.top_cell() else {
        return Err(OpError::Refused(Reply::NoTop));
    };
    let leads = leads(cells, top, path)?;
    let made = with_note(alloc, cells.notes()?, path, property, leads)?;
    put_notes(alloc, cells, made)
}

/// Removes a note.
pub fn drop_note<C: Cells>(
    alloc: Global,
    cells: &mut C,
    path: &Row<Ident>,
    key: &Ident,
) -> Result<Reply, OpError>
    ensures { IsDoneOrRefused result (C.state cells.old) (C.state cells.new) (Op.DropNote path.now key.now) }
{
    let Some(_top) = cells.top_cell() else {
        return Err(OpError::Refused(Reply::NoTop));
    };
    let made = without_note(alloc, cells.notes()?, path, key)?;
    put_notes(alloc, cells, made)
}
