//! The lines that pin, walk, release and collect, and those that begin and abandon a transaction.
ghost use Rattle.std.specs.Prelude.{◌≡◌, ◌++◌, None, OnOk};
ghost use Rattle.flat_lines_spec.specs.Lines.{flattening_text};
ghost use Rattle.script_spec.specs.Session.{Nothing, OnPin};
ghost use Rattle.script_run_spec.specs.Lines.{IsNoBlock};
ghost use Rattle.db_share.specs.Calls.{GoesOn};
ghost use Rattle.script_held.specs.Holding.{block_of, held_of};
ghost use Rattle.script_run.specs.Coming.{Comes, Starts};
ghost use Rattle.script_run.specs.Holding.{Stands};

use crate::along::Along;
use db_share::{CollectError, Db, Pass, Pin, PinAtError, PinError, Tx};
use netdb_outside::Gate;
use netlist_schema::NoMemory;
use script_held::{Block, Held, Stop, filled, held_after};
use script_lang::Step;
use script_say::{
    say_abandoned, say_begin, say_collected, say_gone, say_log_full, say_no_version, say_pin,
    say_released, say_walk,
};
use std::alloc::Global;
use std::sync::Wait;

/// Pins the last version.
pub(crate) fn pin_line(
    rt: &impl Wait,
    alloc: Global,
    db: &Db,
    pass: &mut Pass,
    out: &mut Vec<u8>,
) -> Result<Held, Stop>
    requires { Stands db.now pass.old Held.Nothing }
    ensures on { GoesOn db.now pass.old pass.new }
    ensures comes { Comes db.now pass.old pass.new out.old.items out.new.items Nothing Step.Pin result }
{
    match db.pin(rt, alloc, pass) {
        Ok(pin) => {
            let said = say_pin(pin.version(), out);
            held_after(said, Held::OnPin(pin))
        }
        Err(PinError::LogFull) => Err(filled(say_log_full(out), Held::Nothing)),
        Err(PinError::NoMemory) => Err(Stop::NoMemory(Held::Nothing)),
    }
}

/// Pins a version.
pub(crate) fn pin_at_line(
    rt: &impl Wait,
    alloc: Global,
    db: &Db,
    pass: &mut Pass,
    version: u64,
    out: &mut Vec<u8>,
) -> Result<Held, Stop>
    requires { Stands db.now pass.old Held.Nothing }
    ensures on { GoesOn db.now pass.old pass.new }
    ensures comes { Comes db.now pass.old pass.new out.old.items out.new.items Nothing (Step.PinAt version) result }
{
    match db.pin_at(rt, alloc, pass, version) {
        Ok(pin) => {
            let said = say_pin(pin.version(), out);
            held_after(said, Held::OnPin(pin))
        }
        Err(PinAtError::NoVersion { head }) => held_after(say_no_version(head, out), Held::OffPin),
        Err(PinAtError::Gone { least }) => held_after(say_gone(least, out), Held::OffPin),
        Err(PinAtError::LogFull) => Err(filled(say_log_full(out), Held::Nothing)),
        Err(PinAtError::NoMemory) => Err(Stop::NoMemory(Held::Nothing)),
    }
}

/// Drops the versions that nobody holds, while no transaction is held.
pub(crate) fn collect_line(
    rt: &impl Wait,
    alloc: Global,
    db: &Db,
    pass: &mut Pass,
    held: Held,
    out: &mut Vec<u8>,
) -> Result<Held, Stop>
    requires stands { Stands db.now pass.old held }
    requires no_block { IsNoBlock (held_of held) }
    ensures on { GoesOn db.now pass.old pass.new }
    ensures comes { Comes db.now pass.old pass.new out.old.items out.new.items (held_of held) Step.Collect result }
{
    match db.collect(rt, alloc, pass) {
        Ok(count) => held_after(say_collected(count, out), held),
        Err(CollectError::LogFull) => Err(filled(say_log_full(out), held)),
        Err(CollectError::NoMemory) => Err(Stop::NoMemory(held)),
    }
}

/// Ends a pin.
pub(crate) fn release_line(
    rt: &impl Wait,
    db: &Db,
    pass: &mut Pass,
    pin: Pin,
    out: &mut Vec<u8>,
) -> Result<Held, Stop>
    requires { Stands db.now pass.old (Held.OnPin pin) }
    ensures on { GoesOn db.now pass.old pass.new }
    ensures comes { Comes db.now pass.old pass.new out.old.items out.new.items (OnPin pin.number pin.version) Step.Release result }
{
    db.release(rt, pass, pin);
    held_after(say_released(out), Held::Nothing)
}

/// Says the items of the pinned version.
pub(crate) fn show(
    alloc: Global,
    pin: &Pin,
    limit: Option<u64>,
    out: &mut Vec<u8>,
) -> Result<(), NoMemory>
    requires { ¬ (pin.now.design.top ≡ None) }
    ensures { OnOk result (out.new.items ≡ out.old.items ++ flattening_text pin.now.design limit) }
{
    let walked = pin.snapshot()?;
    say_walk(alloc, walked, pin.snapshot_ref(), limit, out)
}

/// Begins a transaction on a pin of the last version. Its line stands at this place among the lines of the script.
pub(crate) fn start_block<G: Gate>(
    rt: &impl Wait,
    along: &Along<'_, G>,
    pass: &mut Pass,
    retries: u32,
    first: usize,
    out: &mut Vec<u8>,
) -> Result<Block, Stop>
    requires { Stands along.now.db.now pass.old Held.Nothing }
    ensures on { GoesOn along.now.db.now pass.old pass.new }
    ensures starts { Starts along.now.db.now pass.old pass.new out.old.items out.new.items retries result }
{
    let pin = match along.db.pin(rt, along.alloc, pass) {
        Ok(pin) => pin,
        Err(PinError::LogFull) => return Err(filled(say_log_full(out), Held::Nothing)),
        Err(PinError::NoMemory) => return Err(Stop::NoMemory(Held::Nothing)),
    };
    let Ok(()) = say_begin(pin.version(), out) else {
        return Err(Stop::NoMemory(Held::OnPin(pin)));
    };
    match Tx::start(along.alloc, pin) {
        Ok(tx) => Ok(Block { tx, retries, first }),
        Err((_, pin)) => Err(Stop::NoMemory(Held::OnPin(pin))),
    }
}

/// Ends a transaction without a commit.
pub(crate) fn abandon_line(
    rt: &impl Wait,
    db: &Db,
    pass: &mut Pass,
    block: Block,
    out: &mut Vec<u8>,
) -> Result<Held, Stop>
    requires { Stands db.now pass.old (Held.InBlock block) }
    ensures on { GoesOn db.now pass.old pass.new }
    ensures comes { Comes db.now pass.old pass.new out.old.items out.new.items (block_of block) Step.Abandon result }
{
    db.release(rt, pass, block.tx.abandon());
    held_after(say_abandoned(out), Held::Nothing)
}
