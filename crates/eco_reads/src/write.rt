//! What an operation writes.
ghost use Rattle.std.specs.Prelude.{◌≡◌, IfOk, OnErr, OnOk, MatchResult, Ok, [], ◌∷◌};
ghost use Rattle.edit_cells.specs.Change.{HasMade, edits_of};
ghost use Rattle.eco_reads.specs.Outcome.{IsNotRefused};
ghost use Rattle.eco_reads.specs.Plan.{AreNotesPut, CanBePut, CanNotesBePut, IsGood, IsPut, one_change, only_notes};

use crate::op_error::OpError;
use crate::plan::Plan;
use edit_cells::{CellChange, Cells, Change};
use edit_spec::Reply;
use netlist_schema::{CellId, NoMemory, Note, Row};
use std::alloc::Global;

/// A list of one change.
fn only(alloc: Global, change: CellChange) -> Result<Row<CellChange>, NoMemory>
    ensures { IfOk result (λ made. made ≡ change ∷ []) }
{
    let mut changes = Vec::new(alloc);
    changes.push(change)?;
    Ok(Row::of(changes))
}

/// Writes one change of a cell, with other notes where they are given.
pub fn write_one<C: Cells>(
    alloc: Global,
    cells: &mut C,
    change: CellChange,
    notes: Option<Row<Note>>,
) -> Result<(), NoMemory>
    requires { IsGood (C.state cells.old).design (one_change change notes) }
    ensures ok { OnOk result (HasMade (C.state cells.old) (C.state cells.new) (edits_of (C.state cells.old).design (one_change change notes))) }
    ensures err { OnErr result (C.state cells.new ≡ C.state cells.old) }
{
    let changes = only(alloc, change)?;
    cells.write(Change {
        cells: changes,
        notes,
    })
}

/// Puts what was planned into a cell, with other notes where they are given, and answers `Done`. The one error is `NoMemory`,
/// after which nothing is changed.
pub fn put_plan<C: Cells>(
    alloc: Global,
    cells: &mut C,
    id: CellId,
    plan: Plan,
    notes: Option<Row<Note>>,
) -> Result<Reply, OpError>
    requires { CanBePut (C.state cells.old).design id notes (Ok plan) }
    ensures put { MatchResult result (IsPut (C.state cells.old) (C.state cells.new) id notes (Ok plan)) (λ _. C.state cells.new ≡ C.state cells.old) }
    ensures err { IsNotRefused result }
{
    write_one(alloc, cells, plan.change(id), notes)?;
    Ok(Reply::Done)
}

/// Puts other notes in place. Takes no memory of its own.
fn write_notes<C: Cells>(alloc: Global, cells: &mut C, notes: Row<Note>) -> Result<(), NoMemory>
    requires { IsGood (C.state cells.old).design (only_notes notes) }
    ensures ok { OnOk result (HasMade (C.state cells.old) (C.state cells.new) (edits_of (C.state cells.old).design (only_notes notes))) }
    ensures err { OnErr result (C.state cells.new ≡ C.state cells.old) }
{
    cells.write(Change {
        cells: Row::of(Vec::new(alloc)),
        notes: Some(notes),
    })
}

/// Puts the notes that were planned in place, and answers `Done`. The one error is `NoMemory`, after which nothing is changed.
pub fn put_notes<C: Cells>(alloc: Global, cells: &mut C, notes: Row<Note>) -> Result<Reply, OpError>
    requires { CanNotesBePut (C.state cells.old).design (Ok notes) }
    ensures put { MatchResult result (AreNotesPut (C.state cells.old) (C.state cells.new) (Ok notes)) (λ _. C.state cells.new ≡ C.state cells.old) }
    ensures err { IsNotRefused result }
{
    write_notes(alloc, cells, notes)?;
    Ok(Reply::Done)
}
