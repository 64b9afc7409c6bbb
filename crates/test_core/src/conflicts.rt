//! Commits that clash with the commit of another caller, and commits that do not.
ghost use Rattle.test_core.specs.Keeps.{IsPinBy, KeepsOthers};

use crate::calls::{accepted, end_pin, opened, refused, try_on_head};
use crate::designs::{Edit, FIRST, placed, two};
use db_core::{Core, Pin, Tx};
use edit_spec::Reply;
use netlist_schema::Object;
use std::alloc::Global;
use std::process::Abort;
use std::test::Fail;

/// Each of the two places the other.
const SECOND_IN_FIRST: Edit = Edit::Inst("A", "i", "B");

const FIRST_IN_SECOND: Edit = Edit::Inst("B", "i", "A");

/// Joins the port from outside.
const JOIN: Edit = Edit::Join("T", "x", "a", "p");

/// What is in the first cell, and its outside, as the first commit wrote them.
const INSIDE: (Object, u64) = (Object::Contents(FIRST), 1);

const OUTSIDE: (Object, u64) = (Object::Interface(FIRST), 1);

/// Two callers pin the last version and try an edit each, and the first commits it as the next version: the pin of the first, and
/// what the second has.
fn overtaken(
    rt: &impl Abort,
    alloc: Global,
    core: &mut Core,
    first: Edit,
    second: Edit,
) -> (Pin, Tx)
    ensures first { IsPinBy core.new 0 result.0 }
    ensures second { IsPinBy core.new 1 result.1.pin }
{
    let before = try_on_head(rt, alloc, core, 0, first, &Reply::Done);
    let tx = try_on_head(rt, alloc, core, 1, second, &Reply::Done);
    let pin = accepted(rt, core, 0, before, 1);
    (pin, tx)
}

/// A pin has this number and this version.
fn is_pin(rt: &impl Abort, pin: &Pin, number: u64, version: u64) {
    assert!(rt; pin.number() == number);
    assert!(rt; pin.version() == version);
}

/// The history has so many events.
fn has_events(rt: &impl Abort, core: &Core, count: usize) {
    assert!(rt; core.log().len() == count);
}

/// The second caller pins anew, is refused there, and ends the pin.
fn try_anew(rt: &impl Abort, alloc: Global, core: &mut Core)
    ensures { KeepsOthers 1 core.old core.new }
{
    let again = try_on_head(rt, alloc, core, 1, FIRST_IN_SECOND, &Reply::IsCyclic);
    let anew = again.abandon();
    is_pin(rt, &anew, 2, 1);
    has_events(rt, core, 6);
    end_pin(core, 1, anew);
}

/// The second caller commits its edit, which clashes, and ends its pin.
fn clash(rt: &impl Abort, core: &mut Core, tx: Tx)
    requires { IsPinBy core.old 1 tx.pin }
    ensures { KeepsOthers 1 core.old core.new }
{
    is_pin(rt, tx.pin(), 1, 0);
    let back = refused(rt, core, 1, tx, INSIDE);
    end_pin(core, 1, back.abandon());
}

/// Each of two callers places one block in the other. The second clashes, pins anew, and is refused there.
fn cycle(rt: &impl Abort, alloc: Global, core: &mut Core) {
    let (held, tx) = overtaken(rt, alloc, core, SECOND_IN_FIRST, FIRST_IN_SECOND);
    is_pin(rt, &held, 0, 0);
    clash(rt, core, tx);
    try_anew(rt, alloc, core);
    end_pin(core, 0, held);
    has_events(rt, core, 8);
}

#[test]
fn what_would_make_a_cycle_is_refused(rt: HostRuntime) -> Result<(), Fail> {
    let alloc = rt.alloc();
    let mut core = opened(&rt, alloc, two(alloc)?);
    cycle(&rt, alloc, &mut core);
    Ok(())
}

/// A transaction has its one operation and that one's reply, and the history has five events and two versions.
fn is_left(rt: &impl Abort, core: &Core, tx: &Tx) {
    assert!(rt; tx.ops().as_slice().len() == 1);
    assert!(rt; tx.replies().as_slice().len() == 1);
    assert!(rt; matches!(tx.replies().as_slice().first(), Some(Reply::Done)));
    assert!(rt; core.kept() == 2);
    has_events(rt, core, 5);
}

/// Commits a transaction that clashes, twice: each time with the same, and it is left as it was.
fn again(rt: &impl Abort, alloc: Global, core: &mut Core) {
    let (_, tx) = overtaken(rt, alloc, core, SECOND_IN_FIRST, FIRST_IN_SECOND);
    let once = refused(rt, core, 1, tx, INSIDE);
    let twice = refused(rt, core, 1, once, INSIDE);
    is_left(rt, core, &twice);
}

#[test]
fn a_refused_transaction_can_be_committed_again(rt: HostRuntime) -> Result<(), Fail> {
    let alloc = rt.alloc();
    let mut core = opened(&rt, alloc, two(alloc)?);
    again(&rt, alloc, &mut core);
    Ok(())
}

/// A change inside a cell and a join of its port from outside make a version each.
fn joined(rt: &impl Abort, alloc: Global, core: &mut Core) {
    let (_, tx) = overtaken(rt, alloc, core, Edit::Net("A", "n"), JOIN);
    let _joined = accepted(rt, core, 1, tx, 2);
}

#[test]
fn a_port_may_be_joined_while_its_cell_is_changed_inside(rt: HostRuntime) -> Result<(), Fail> {
    let alloc = rt.alloc();
    let mut core = opened(&rt, alloc, placed(alloc)?);
    joined(&rt, alloc, &mut core);
    Ok(())
}

/// A change of the cell itself makes a version, and the join clashes with it.
fn not_joined(rt: &impl Abort, alloc: Global, core: &mut Core) {
    let (_, tx) = overtaken(rt, alloc, core, Edit::Own("A", "K"), JOIN);
    let _back = refused(rt, core, 1, tx, OUTSIDE);
}

#[test]
fn no_port_is_joined_while_its_cell_is_changed(rt: HostRuntime) -> Result<(), Fail> {
    let alloc = rt.alloc();
    let mut core = opened(&rt, alloc, placed(alloc)?);
    not_joined(&rt, alloc, &mut core);
    Ok(())
}
