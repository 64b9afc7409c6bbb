//! The rounds of a run: in each a caller pins the last version, commits one edit, and releases the pin.
ghost use Rattle.std.specs.Prelude.{◌≡◌, ◌≤◌, ◌<◌, ◌+◌, IfOk, OnOk, Ok};
ghost use Rattle.edit_tx.specs.Facts.{HasRun};
ghost use Rattle.db_core.specs.Calls.{Collects, PinsHead};
ghost use Rattle.db_core.specs.Story.{IsPinOf, state};
ghost use Rattle.db_spec.specs.Answers.{HasPlaces};
ghost use Rattle.db_spec.specs.State.{head};
ghost use Rattle.gen_rounds.specs.Stand.{HasCommitted, IsAccepted, StandsAfter, StandsEdited};
ghost use Rattle.gen_spec.specs.declared.limits.TheConstants.{MOST_SIZE};

use db_core::{CollectError, CommitError, Core, PinError};
use design_gen::gen_op;
use edit_spec::Op;
use edit_tx::{Pin, Tx};
use netlist_schema::NoMemory;
use std::alloc::Global;

/// The caller that edits.
pub const EDITOR: u32 = 0;

/// After so many rounds the editor collects.
const ROUNDS_A_COLLECT: u32 = 16;

/// Pins the last version, where the history has room for it.
pub(crate) fn pin_head(core: &mut Core, caller: u32) -> Result<Pin, NoMemory>
    requires { HasPlaces (state core.old) 2 }
    ensures { IfOk result (λ pin. PinsHead core.old core.new caller (Ok pin)) }
{
    match core.pin(caller) {
        Ok(pin) => Ok(pin),
        Err(PinError::NoMemory) => Err(NoMemory),
        Err(PinError::LogFull) => unreachable!(),
    }
}

/// Runs an operation, whose reply nobody asks for.
fn try_op(tx: &mut Tx, op: Op) -> Result<(), NoMemory>
    ensures { OnOk result (HasRun tx.old tx.new op) }
{
    tx.run(op)?;
    Ok(())
}

/// Commits a transaction on a pin on the last version, where the history has room for it, and gives the pin back.
fn commit(core: &mut Core, tx: Tx) -> Result<Pin, NoMemory>
    requires places { HasPlaces (state core.old) 1 }
    requires pin { IsPinOf core.old tx.pin }
    requires last { tx.pin.version ≡ head (state core.old) }
    ensures { IfOk result (IsAccepted core.old core.new tx) }
{
    core.history_is_legal();
    match core.commit(tx) {
        Ok((_, back)) => Ok(back),
        Err((CommitError::NoMemory, _)) => Err(NoMemory),
        Err((CommitError::LogFull, _)) => unreachable!(),
        Err((CommitError::Conflict { .. }, _)) => unreachable!(),
    }
}

/// Commits an operation on a pin on the last version, where the history has room for it, and gives the pin back.
fn commit_on_head(alloc: Global, core: &mut Core, pin: Pin, op: Op) -> Result<Pin, NoMemory>
    requires places { HasPlaces (state core.old) 1 }
    requires pin { IsPinOf core.old pin }
    requires last { pin.version ≡ head (state core.old) }
    ensures { IfOk result (λ back. HasCommitted core.old core.new pin op back) }
{
    let Ok(mut tx) = Tx::start(alloc, pin) else {
        return Err(NoMemory);
    };
    try_op(&mut tx, op)?;
    commit(core, tx)
}

/// Collects, where the history has room for it.
fn collect(core: &mut Core) -> Result<u32, NoMemory>
    requires { HasPlaces (state core.old) 1 }
    ensures { IfOk result (λ dropped. Collects core.old core.new 0 (Ok dropped)) }
{
    match core.collect(EDITOR) {
        Ok(dropped) => Ok(dropped),
        Err(CollectError::NoMemory) => Err(NoMemory),
        Err(CollectError::LogFull) => unreachable!(),
    }
}

/// Commits the edit of the round behind so many.
fn edit(alloc: Global, core: &mut Core, count: u32, passed: u32) -> Result<(), NoMemory>
    requires count { count ≤ MOST_SIZE }
    requires passed { passed < count }
    requires stands { StandsAfter count passed core.old }
    ensures { OnOk result (StandsEdited count passed core.new) }
{
    let op = gen_op(alloc, count, passed + 1)?;
    let pin = pin_head(core, EDITOR)?;
    let back = commit_on_head(alloc, core, pin, op)?;
    core.release(back);
    Ok(())
}

/// Ends the round behind so many: each sixteenth one by a collect.
fn end_round(core: &mut Core, count: u32, passed: u32) -> Result<(), NoMemory>
    requires count { count ≤ MOST_SIZE }
    requires passed { passed < count }
    requires stands { StandsEdited count passed core.old }
    ensures { OnOk result (StandsAfter count (passed + 1) core.new) }
{
    if (passed + 1) % ROUNDS_A_COLLECT != 0 {
        return Ok(());
    }
    collect(core)?;
    Ok(())
}

/// All rounds, one after the other.
pub(crate) fn take_rounds(alloc: Global, core: &mut Core, count: u32) -> Result<(), NoMemory>
    requires count { count ≤ MOST_SIZE }
    requires stands { StandsAfter count 0 core.old }
    ensures { OnOk result (StandsAfter count count core.new) }
{
    for passed in 0..count {
        edit(alloc, core, count, passed)?;
        end_round(core, count, passed)?;
    }
    Ok(())
}
