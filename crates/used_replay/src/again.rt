//! The accepted commits of a history, done again.
ghost use Rattle.std.specs.Prelude.{◌≡◌, OnErr, OnOk};
ghost use Rattle.edit_spec.specs.Step.{run};
ghost use Rattle.used_replay.specs.Replayed.{IsPartway, accepted, accepted_in, redone, replayed};

use db_spec::{Answer, Call, Event};
use edit_cells::Cells;
use edit_spec::Op;
use edit_tx::apply_op;
use netlist_schema::NoMemory;
use std::alloc::Global;

/// Runs operations, one after the other. Where memory is refused, those before one of them are done.
fn run_all<C: Cells>(alloc: Global, cells: &mut C, ops: &[Op]) -> Result<(), NoMemory>
    ensures base { (C.state cells.new).base ≡ (C.state cells.old).base }
    ensures partway { OnErr result (IsPartway (C.state cells.old).design (C.state cells.new).design ops.now) }
    ensures done { OnOk result ((C.state cells.new).design ≡ (run (C.state cells.old).design ops.now).design) }
{
    for op in ops {
        let _reply = apply_op(alloc, cells, op)?;
    }
    Ok(())
}

/// Does an event again: the operations of an accepted commit, and nothing else.
fn redo<C: Cells>(alloc: Global, cells: &mut C, event: &Event) -> Result<(), NoMemory>
    ensures base { (C.state cells.new).base ≡ (C.state cells.old).base }
    ensures partway { OnErr result (IsPartway (C.state cells.old).design (C.state cells.new).design (accepted_in event.now.call event.now.answer)) }
    ensures done { OnOk result ((C.state cells.new).design ≡ redone (C.state cells.old).design event.now.call event.now.answer) }
{
    let Call::Commit { pin: _, ops } = &event.call else {
        return Ok(());
    };
    match &event.answer {
        Answer::Committed { .. } => run_all(alloc, cells, ops.as_slice()),
        _ => Ok(()),
    }
}

/// Does the accepted commits of a history again, in order, each operation by `apply_op`. Where the cells began with the opening design
/// of a legal history, they come to its last version. What the cells began with stays. The one error is that an allocation was refused;
/// the operations before one of them are done then, and no others.
pub fn replay<C: Cells>(alloc: Global, cells: &mut C, history: &[Event]) -> Result<(), NoMemory>
    ensures base { (C.state cells.new).base ≡ (C.state cells.old).base }
    ensures partway { OnErr result (IsPartway (C.state cells.old).design (C.state cells.new).design (accepted history.now)) }
    ensures done { OnOk result ((C.state cells.new).design ≡ replayed (C.state cells.old).design history.now) }
{
    for event in history {
        redo(alloc, cells, event)?;
    }
    Ok(())
}
