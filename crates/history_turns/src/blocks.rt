//! The calls of transactions that commit, and are run again after a conflict.
ghost use Rattle.std.specs.Prelude.{◌≡◌, ◌++◌, ◌∷◌, [], ℕ, suc, Bool, IfOk, List, OnOk, false};
ghost use Rattle.edit_spec.specs.Step.{run};
ghost use Rattle.edit_tx.specs.Facts.{HasRun, started};
ghost use Rattle.script_spec.specs.Session.{reply_behind};
ghost use Rattle.script_spec.specs.Texts.{line, reply_text};
ghost use Rattle.script_spec.specs.declared.script.Step.{Step};
ghost use Rattle.script_spec.specs.declared.script.Step.TheVariants.{Commit};
ghost use Rattle.db_core.specs.Story.{IsPinOf};
ghost use Rattle.history_check_spec.specs.Left.{Again};
ghost use Rattle.history_turns.specs.Moves.{Comes, ComesThere, reply_lines};
ghost use Rattle.history_turns.specs.Seats.{phase_of};

use crate::lines::start;
use crate::seats::{At, Block};
use db_core::{CommitError, Core, PinError, Tx};
use edit_spec::Op;
use netlist_schema::{Copied, NoMemory};
use script_say::{say_begin, say_committed, say_conflict, say_reply};
use std::alloc::Global;

/// Runs an operation and says its reply.
pub(crate) fn try_op(
    alloc: Global,
    tx: &mut Tx,
    op: &Op,
    said: &mut Vec<u8>,
) -> Result<(), NoMemory>
    ensures run { OnOk result (HasRun tx.old tx.new op.now) }
    ensures said { OnOk result (said.new.items ≡ said.old.items ++ line (reply_text (reply_behind tx.old.pin.design tx.old.ops op.now) ∷ [])) }
{
    let copy = op.copy(alloc)?;
    match tx.run(copy) {
        Ok(reply) => say_reply(alloc, reply, said),
        Err(NoMemory) => Err(NoMemory),
    }
}

/// Runs the operations of a transaction again, and says their replies.
fn run_ops(alloc: Global, tx: &mut Tx, ops: &[Op], said: &mut Vec<u8>) -> Result<(), NoMemory>
    requires { tx.old ≡ started tx.old.pin }
    ensures ops { OnOk result (tx.new.ops ≡ ops.now) }
    ensures pin { OnOk result (tx.new.pin ≡ tx.old.pin) }
    ensures said { OnOk result (said.new.items ≡ said.old.items ++ reply_lines (run tx.old.pin.design ops.now).replies) }
{
    for done in 0..ops.len() {
        try_op(alloc, tx, &ops[done], said)?;
    }
    Ok(())
}

/// Begins a transaction whose commit was refused on a new pin of the last version, and runs its operations again. Nothing comes where
/// the history has no room.
pub(crate) fn begin_again(
    alloc: Global,
    core: &mut Core,
    caller: u32,
    ops: &[Op],
    retries: u32,
    said: &mut Vec<u8>,
) -> Result<Option<At>, NoMemory>
    ensures { (r : Bool) (lines : List Step) → IfOk result (ComesThere core.old core.new caller r (Again retries ops.now) lines said.old.items said.new.items) }
{
    core.history_is_legal();
    match core.pin(caller) {
        Ok(pin) => {
            say_begin(pin.version(), said)?;
            let mut block = start(alloc, pin, retries)?;
            run_ops(alloc, &mut block.tx, ops, said)?;
            Ok(Some(At::InBlock(block)))
        }
        Err(PinError::LogFull) => Ok(None),
        Err(PinError::NoMemory) => Err(NoMemory),
    }
}

/// What is owed behind a conflict: the release of the pin, and the transaction again where retries are left.
fn behind_conflict(tx: Tx, retries: u32) -> At
    ensures spent { retries ≡ 0 → result ≡ At.Owes tx.pin }
    ensures again { (left : ℕ) → retries ≡ suc left → result ≡ At.OwesAgain (record { tx = tx; retries = left }) }
{
    if retries == 0 {
        return At::Owes(tx.abandon());
    }
    At::OwesAgain(Block {
        tx,
        retries: retries - 1,
    })
}

/// Commits a transaction. Nothing comes where the history has no room.
pub(crate) fn commit_line(
    alloc: Global,
    core: &mut Core,
    block: Block,
    said: &mut Vec<u8>,
) -> Result<Option<At>, NoMemory>
    requires { IsPinOf core.old block.tx.pin }
    ensures { IfOk result (Comes core.old core.new block.tx.pin.caller false (phase_of (At.InBlock block)) Commit said.old.items said.new.items) }
{
    core.history_is_legal();
    let Block { tx, retries } = block;
    match core.commit(tx) {
        Ok((version, pin)) => {
            say_committed(version, said)?;
            Ok(Some(At::Owes(pin)))
        }
        Err((CommitError::LogFull, _)) => Ok(None),
        Err((CommitError::NoMemory, _)) => Err(NoMemory),
        Err((CommitError::Conflict { object, version }, tx)) => {
            say_conflict(alloc, core.head(), object, version, said)?;
            Ok(Some(behind_conflict(tx, retries)))
        }
    }
}
