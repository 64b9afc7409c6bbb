//! Calls of a database by two callers, with what they leave of the pins made before. A call that is not answered as it should be ends the
//! test.
ghost use Rattle.std.specs.Prelude.{◌≡◌, IfOk};
ghost use Rattle.test_core.specs.Keeps.{IsPinBy, KeepsOthers, KeepsPins};

use crate::designs::{Edit, op_of};
use db_core::{CollectError, CommitError, Core, Pin, PinAtError, Tx};
use edit_spec::Reply;
use netlist_schema::{Design, Object};
use std::alloc::Global;
use std::process::Abort;

/// A database of this design.
pub fn opened(rt: &impl Abort, alloc: Global, design: Design) -> Core {
    Core::new(alloc, design).expect(rt, "a database")
}

/// Pins the last version.
pub fn pin_head(rt: &impl Abort, core: &mut Core, caller: u32) -> Pin
    ensures keeps { KeepsPins core.old core.new }
    ensures pin { IsPinBy core.new caller result }
{
    core.history_is_legal();
    match core.pin(caller) {
        Ok(pin) => pin,
        Err(_) => rt.panic("no pin"),
    }
}

/// Pins a version.
fn pin_version(core: &mut Core, caller: u32, version: u64) -> Result<Pin, PinAtError>
    ensures keeps { KeepsPins core.old core.new }
    ensures pin { IfOk result (IsPinBy core.new caller) }
{
    core.history_is_legal();
    core.pin_at(caller, version)
}

/// Ends a pin.
pub fn end_pin(core: &mut Core, caller: u32, pin: Pin)
    requires { IsPinBy core.old caller pin }
    ensures { KeepsOthers caller core.old core.new }
{
    core.history_is_legal();
    core.release(pin);
}

/// Pins a version, and ends the pin.
pub fn look_at(core: &mut Core, caller: u32, version: u64) -> Result<u64, PinAtError>
    ensures { KeepsOthers caller core.old core.new }
{
    let pin = pin_version(core, caller, version)?;
    let version = pin.version();
    end_pin(core, caller, pin);
    Ok(version)
}

/// Drops the versions that nobody holds.
pub fn collect(core: &mut Core, caller: u32) -> Result<u32, CollectError>
    ensures { KeepsPins core.old core.new }
{
    core.history_is_legal();
    core.collect(caller)
}

fn is_version(rt: &impl Abort, version: u64, wanted: u64) {
    assert!(rt; version == wanted);
}

/// Commits a transaction that is accepted as this version, and gives the pin.
pub fn accepted(rt: &impl Abort, core: &mut Core, caller: u32, tx: Tx, wanted: u64) -> Pin
    requires { IsPinBy core.old caller tx.pin }
    ensures keeps { KeepsPins core.old core.new }
    ensures pin { IsPinBy core.new caller result }
{
    core.history_is_legal();
    match core.commit(tx) {
        Ok((version, pin)) => {
            is_version(rt, version, wanted);
            pin
        }
        Err(_) => rt.panic("refused"),
    }
}

/// A refused commit clashes with this object, which this commit wrote last.
fn is_clash(rt: &impl Abort, error: CommitError, wanted: (Object, u64)) {
    let (object, version) = wanted;
    assert!(rt; error == CommitError::Conflict { object, version });
}

/// Commits a transaction that clashes with this object, which this commit wrote last, and gives the transaction.
pub fn refused(rt: &impl Abort, core: &mut Core, caller: u32, tx: Tx, wanted: (Object, u64)) -> Tx
    requires { IsPinBy core.old caller tx.pin }
    ensures keeps { KeepsPins core.old core.new }
    ensures back { IsPinBy core.new caller result.pin }
{
    core.history_is_legal();
    match core.commit(tx) {
        Ok(_) => rt.panic("no conflict"),
        Err((error, back)) => {
            is_clash(rt, error, wanted);
            back
        }
    }
}

fn is_reply(rt: &impl Abort, reply: &Reply, wanted: &Reply) {
    assert!(rt; *reply == *wanted);
}

/// Runs an edit, whose reply is this one.
fn run(rt: &impl Abort, alloc: Global, tx: &mut Tx, edit: Edit, reply: &Reply)
    ensures { tx.new.pin ≡ tx.old.pin }
{
    match tx.run(op_of(rt, alloc, edit)) {
        Ok(given) => is_reply(rt, given, reply),
        Err(_) => rt.panic("no memory"),
    }
}

/// A transaction on a pin, of which nothing was run.
fn started(rt: &impl Abort, alloc: Global, pin: Pin) -> Tx
    ensures { result.pin ≡ pin }
{
    match Tx::start(alloc, pin) {
        Ok(tx) => tx,
        Err(_) => rt.panic("no memory"),
    }
}

/// Pins the last version and tries an edit there, whose reply is this one.
pub fn try_on_head(
    rt: &impl Abort,
    alloc: Global,
    core: &mut Core,
    caller: u32,
    edit: Edit,
    reply: &Reply,
) -> Tx
    ensures keeps { KeepsPins core.old core.new }
    ensures pin { IsPinBy core.new caller result.pin }
{
    let pin = pin_head(rt, core, caller);
    let mut tx = started(rt, alloc, pin);
    run(rt, alloc, &mut tx, edit, reply);
    tx
}
