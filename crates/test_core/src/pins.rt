//! Calls of the second of two callers, which leave the pin of the first. A call that is not answered as it should be ends the test.
ghost use Rattle.std.specs.Prelude.{◌≡◌};
ghost use Rattle.test_core.specs.Pins.{IsPinBy};

use crate::block_designs::add_net;
use db_core::{Core, Pin, Tx};
use edit_spec::Op;
use std::alloc::Global;
use std::process::Abort;

/// Runs an operation.
fn run(rt: &impl Abort, tx: &mut Tx, op: Op)
    ensures { tx.new.pin ≡ tx.old.pin }
{
    match tx.run(op) {
        Ok(_) => (),
        Err(_) => rt.panic("no memory"),
    }
}

/// A transaction on a pin, of which nothing was run.
fn started(rt: &impl Abort, alloc: Global, pin: Pin) -> Tx
    ensures { result.pin ≡ pin }
{
    match Tx::start(alloc, pin) {
        Ok(tx) => tx,
        Err(_) => rt.panic("no memory"),
    }
}

/// Pins the last version.
fn pin_head(rt: &impl Abort, core: &mut Core, held: &Pin) -> Pin
    requires { IsPinBy core.old 0 held.now }
    ensures held { IsPinBy core.new 0 held.now }
    ensures pin { IsPinBy core.new 1 result }
{
    core.history_is_legal();
    match core.pin(1) {
        Ok(pin) => pin,
        Err(_) => rt.panic("no pin"),
    }
}

/// Commits a transaction, and gives its pin back.
fn commit(rt: &impl Abort, core: &mut Core, tx: Tx, held: &Pin) -> Pin
    requires held { IsPinBy core.old 0 held.now }
    requires pin { IsPinBy core.old 1 tx.pin }
    ensures held { IsPinBy core.new 0 held.now }
    ensures pin { IsPinBy core.new 1 result }
{
    core.history_is_legal();
    match core.commit(tx) {
        Ok((_, pin)) => pin,
        Err(_) => rt.panic("refused"),
    }
}

/// Pins the last version, commits the edit on it, and ends the pin.
pub fn commit_net(rt: &impl Abort, alloc: Global, core: &mut Core, held: &Pin)
    requires { IsPinBy core.old 0 held.now }
    ensures { IsPinBy core.new 0 held.now }
{
    let own = pin_head(rt, core, held);
    let mut tx = started(rt, alloc, own);
    run(rt, &mut tx, add_net(rt, alloc));
    let own = commit(rt, core, tx, held);
    core.history_is_legal();
    core.release(own);
}
