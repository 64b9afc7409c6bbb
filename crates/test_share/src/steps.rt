//! The steps of one caller. What its calls answer is in the log that all callers leave.
ghost use Rattle.std.specs.Prelude.{◌≡◌, IfSome};
ghost use Rattle.db_share.specs.Passes.{HasPin, IsReady};
ghost use Rattle.test_share.specs.Callers.{GoesTo, HasOpen};

use crate::callers::Caller;
use crate::designs::{Edit, op_of};
use db_share::{Db, Pass, Pin, Tx};
use edit_spec::{Op, Reply};
use std::alloc::Global;
use std::sync::Wait;

/// A call of a caller, or an edit between two calls.
#[derive(Clone, Copy)]
pub enum Step<'a> {
    /// Pins the last version, for a transaction.
    Pin,
    /// Pins the version of this number, which may be gone.
    PinAt(u64),
    /// Runs an edit, which is done.
    Do(Edit<'a>),
    /// Runs an edit, which would be a cycle.
    Refuse(Edit<'a>),
    /// Commits the transaction. Its pin stays.
    Commit,
    /// Ends the pin, where there is one.
    Release,
    /// Drops the versions that nobody holds.
    Collect,
}

/// Begins a transaction.
fn begun(alloc: Global, pass: Pass, pin: Pin) -> Caller
    ensures pass { result.pass ≡ pass }
    ensures tx { IfSome result.tx (λ tx. tx.pin ≡ pin) }
{
    match Tx::start(alloc, pin) {
        Ok(tx) => Caller { pass, tx: Some(tx) },
        Err(_) => Caller { pass, tx: None },
    }
}

fn pin_head(rt: &impl Wait, alloc: Global, db: &Db, mut pass: Pass) -> Caller
    requires { IsReady db.now pass }
    ensures { GoesTo db.now pass result.pass result.tx }
{
    match db.pin(rt, alloc, &mut pass) {
        Ok(pin) => begun(alloc, pass, pin),
        Err(_) => Caller { pass, tx: None },
    }
}

fn pin_one(rt: &impl Wait, alloc: Global, db: &Db, mut pass: Pass, version: u64) -> Caller
    requires { IsReady db.now pass }
    ensures { GoesTo db.now pass result.pass result.tx }
{
    match db.pin_at(rt, alloc, &mut pass, version) {
        Ok(pin) => begun(alloc, pass, pin),
        Err(_) => Caller { pass, tx: None },
    }
}

/// Commits, and begins the next transaction on the same pin; one that conflicts stays as it was.
fn commit(rt: &impl Wait, alloc: Global, db: &Db, mut pass: Pass, tx: Tx) -> Caller
    requires ready { IsReady db.now pass }
    requires pin { HasPin db.now pass tx.pin }
    ensures { GoesTo db.now pass result.pass result.tx }
{
    match db.commit(rt, alloc, &mut pass, tx) {
        Ok((_, pin)) => begun(alloc, pass, pin),
        Err((_, back)) => Caller {
            pass,
            tx: Some(back),
        },
    }
}

fn release(rt: &impl Wait, db: &Db, mut pass: Pass, tx: Tx) -> Caller
    requires ready { IsReady db.now pass }
    requires pin { HasPin db.now pass tx.pin }
    ensures { GoesTo db.now pass result.pass result.tx }
{
    db.release(rt, &mut pass, tx.abandon());
    Caller { pass, tx: None }
}

fn collect(rt: &impl Wait, alloc: Global, db: &Db, mut pass: Pass, tx: Option<Tx>) -> Caller
    requires ready { IsReady db.now pass }
    requires tx { HasOpen db.now pass tx }
    ensures { GoesTo db.now pass result.pass result.tx }
{
    let _ = db.collect(rt, alloc, &mut pass);
    Caller { pass, tx }
}

/// Whether an edit was done, or refused as a cycle.
fn is_wanted(reply: &Reply, refused: bool) -> bool {
    match reply {
        Reply::Done => !refused,
        Reply::IsCyclic => refused,
        _ => false,
    }
}

/// Runs an operation; whether it was done, or refused as a cycle.
pub fn run(tx: &mut Tx, op: Op, refused: bool) -> bool
    ensures { tx.new.pin ≡ tx.old.pin }
{
    match tx.run(op) {
        Ok(reply) => is_wanted(reply, refused),
        Err(_) => false,
    }
}

fn edit(alloc: Global, mut tx: Tx, edit: &Edit, refused: bool) -> Option<Tx>
    ensures { IfSome result (λ ran. ran.pin ≡ tx.pin) }
{
    let op = op_of(alloc, edit)?;
    if run(&mut tx, op, refused) {
        return Some(tx);
    }
    None
}

/// A step of a caller that has a transaction.
fn step_on(rt: &impl Wait, alloc: Global, db: &Db, pass: Pass, tx: Tx, step: &Step) -> Caller
    requires ready { IsReady db.now pass }
    requires pin { HasPin db.now pass tx.pin }
    ensures { GoesTo db.now pass result.pass result.tx }
{
    match step {
        Step::Do(made) => Caller {
            pass,
            tx: edit(alloc, tx, made, false),
        },
        Step::Refuse(made) => Caller {
            pass,
            tx: edit(alloc, tx, made, true),
        },
        Step::Commit => commit(rt, alloc, db, pass, tx),
        Step::Release => release(rt, db, pass, tx),
        Step::Collect => collect(rt, alloc, db, pass, Some(tx)),
        _ => Caller { pass, tx: None },
    }
}

/// A step of a caller that has none.
fn step_off(rt: &impl Wait, alloc: Global, db: &Db, pass: Pass, step: &Step) -> Caller
    requires { IsReady db.now pass }
    ensures { GoesTo db.now pass result.pass result.tx }
{
    match step {
        Step::Pin => pin_head(rt, alloc, db, pass),
        Step::PinAt(version) => pin_one(rt, alloc, db, pass, *version),
        Step::Collect => collect(rt, alloc, db, pass, None),
        _ => Caller { pass, tx: None },
    }
}

fn one_step(rt: &impl Wait, alloc: Global, db: &Db, caller: Caller, step: &Step) -> Caller
    requires ready { IsReady db.now caller.pass }
    requires tx { HasOpen db.now caller.pass caller.tx }
    ensures { GoesTo db.now caller.pass result.pass result.tx }
{
    let Caller { pass, tx } = caller;
    match tx {
        Some(tx) => step_on(rt, alloc, db, pass, tx, step),
        None => step_off(rt, alloc, db, pass, step),
    }
}

/// Steps, one after the other.
pub fn go(rt: &impl Wait, alloc: Global, db: &Db, mut caller: Caller, steps: &[Step]) -> Caller
    requires ready { IsReady db.now caller.pass }
    requires tx { HasOpen db.now caller.pass caller.tx }
    ensures { GoesTo db.now caller.pass result.pass result.tx }
{
    for one in steps {
        caller = one_step(rt, alloc, db, caller, one);
    }
    caller
}
