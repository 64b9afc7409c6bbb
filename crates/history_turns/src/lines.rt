//! The calls of lines that pin, release and collect. Each function makes the next call of a caller, and says what its line says.
ghost use Rattle.std.specs.Prelude.{◌≡◌, Bool, IfOk, false};
ghost use Rattle.db_core.specs.Story.{IsPinOf};
ghost use Rattle.edit_tx.specs.Facts.{started};
ghost use Rattle.script_spec.specs.Session.{Nothing, OnPin};
ghost use Rattle.history_check_spec.specs.Left.{Between};
ghost use Rattle.history_turns.specs.Moves.{Called, Comes, IsCutOff};
ghost use Rattle.history_turns.specs.Seats.{IsAt, IsFree, phase_of};

use crate::seats::{At, Block};
use db_core::{CollectError, Core, Pin, PinAtError, PinError, Tx};
use netlist_schema::NoMemory;
use script_say::{
    say_abandoned, say_begin, say_collected, say_gone, say_log_full, say_no_version, say_pin,
    say_released,
};
use script_spec::Step;
use std::alloc::Global;

/// Pins the last version. Nothing comes where the history has no room.
pub(crate) fn pin_line(
    core: &mut Core,
    caller: u32,
    said: &mut Vec<u8>,
) -> Result<Option<At>, NoMemory>
    ensures { (r : Bool) → IfOk result (Comes core.old core.new caller r (Between Nothing) Step.Pin said.old.items said.new.items) }
{
    match core.pin(caller) {
        Ok(pin) => {
            say_pin(pin.version(), said)?;
            Ok(Some(At::OnPin(pin)))
        }
        Err(PinError::LogFull) => Ok(None),
        Err(PinError::NoMemory) => Err(NoMemory),
    }
}

/// Pins a version. Nothing comes where the history has no room.
pub(crate) fn pin_at_line(
    core: &mut Core,
    caller: u32,
    version: u64,
    said: &mut Vec<u8>,
) -> Result<Option<At>, NoMemory>
    ensures { (r : Bool) → IfOk result (Comes core.old core.new caller r (Between Nothing) (Step.PinAt version) said.old.items said.new.items) }
{
    match core.pin_at(caller, version) {
        Ok(pin) => {
            say_pin(pin.version(), said)?;
            Ok(Some(At::OnPin(pin)))
        }
        Err(PinAtError::NoVersion { head }) => {
            say_no_version(head, said)?;
            Ok(Some(At::OffPin))
        }
        Err(PinAtError::Gone { least }) => {
            say_gone(least, said)?;
            Ok(Some(At::OffPin))
        }
        Err(PinAtError::LogFull) => Ok(None),
        Err(PinAtError::NoMemory) => Err(NoMemory),
    }
}

/// A transaction of which nothing was run.
pub(crate) fn start(alloc: Global, pin: Pin, retries: u32) -> Result<Block, NoMemory>
    ensures { IfOk result (λ block. (block.tx ≡ started pin) × (block.retries ≡ retries)) }
{
    match Tx::start(alloc, pin) {
        Ok(tx) => Ok(Block { tx, retries }),
        Err(_) => Err(NoMemory),
    }
}

/// Begins a transaction on a pin of the last version. Nothing comes where the history has no room.
pub(crate) fn begin_line(
    alloc: Global,
    core: &mut Core,
    caller: u32,
    retries: u32,
    said: &mut Vec<u8>,
) -> Result<Option<At>, NoMemory>
    ensures { (r : Bool) → IfOk result (Comes core.old core.new caller r (Between Nothing) (Step.Begin retries) said.old.items said.new.items) }
{
    match core.pin(caller) {
        Ok(pin) => {
            say_begin(pin.version(), said)?;
            let block = start(alloc, pin, retries)?;
            Ok(Some(At::InBlock(block)))
        }
        Err(PinError::LogFull) => Ok(None),
        Err(PinError::NoMemory) => Err(NoMemory),
    }
}

/// Drops the versions that nobody holds, where no transaction is held. Nothing comes where the history has no room.
pub(crate) fn collect_line(
    core: &mut Core,
    caller: u32,
    at: At,
    said: &mut Vec<u8>,
) -> Result<Option<At>, NoMemory>
    requires free { IsFree at }
    requires at { IsAt core.old caller at }
    ensures { IfOk result (Comes core.old core.new caller false (phase_of at) Step.Collect said.old.items said.new.items) }
{
    core.history_is_legal();
    match core.collect(caller) {
        Ok(count) => {
            say_collected(count, said)?;
            Ok(Some(at))
        }
        Err(CollectError::LogFull) => Ok(None),
        Err(CollectError::NoMemory) => Err(NoMemory),
    }
}

/// Releases the pin.
pub(crate) fn release_line(core: &mut Core, pin: Pin, said: &mut Vec<u8>) -> Result<At, NoMemory>
    requires { IsPinOf core.old pin }
    ensures { (r : Bool) → IfOk result (Called core.old core.new pin.caller r (Between (OnPin pin.number pin.version)) Step.Release said.old.items said.new.items) }
{
    core.release(pin);
    say_released(said)?;
    Ok(At::Free)
}

/// Ends a transaction without a commit.
pub(crate) fn abandon_line(
    core: &mut Core,
    block: Block,
    said: &mut Vec<u8>,
) -> Result<At, NoMemory>
    requires { IsPinOf core.old block.tx.pin }
    ensures { (r : Bool) → IfOk result (Called core.old core.new block.tx.pin.caller r (phase_of (At.InBlock block)) Step.Abandon said.old.items said.new.items) }
{
    core.release(block.tx.abandon());
    say_abandoned(said)?;
    Ok(At::Free)
}

/// Ends a script whose call was refused since the log was full, and releases the pin that was held.
pub(crate) fn cut_off(core: &mut Core, pin: Pin, said: &mut Vec<u8>) -> Result<At, NoMemory>
    requires { IsPinOf core.old pin }
    ensures { IfOk result (IsCutOff core.old core.new pin said.old.items said.new.items) }
{
    core.release(pin);
    say_log_full(said)?;
    Ok(At::Over(1))
}
