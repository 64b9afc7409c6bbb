//! Calls on a desk over a design with a leaf, and a top with an instance of it on a net.
use crate::designs::PAIR;
use db_core::{CommitError, PinAtError};
use edit_spec::Reply;
use netdb_desk::{Desk, LineError, WrongUse};
use netlist_schema::{CellId, LibId, Object};
use std::alloc::Global;
use std::test::Fail;
use test_text_designs::design_of;

/// A desk over the design.
fn opened(alloc: Global) -> Result<Desk, Fail> {
    let design = design_of(alloc, PAIR.as_bytes())?;
    Ok(Desk::open(alloc, design)?)
}

#[test]
fn a_commit_makes_the_next_version(rt: HostRuntime) -> Result<(), Fail> {
    let mut desk = opened(rt.alloc())?;
    assert_eq!(rt; desk.pin(3)?, Ok(0));
    assert_eq!(rt; desk.begin(3)?, Ok(()));
    assert_eq!(rt; desk.line(3, b"add-net w T m")?, Ok(()));
    assert!(rt; matches!(desk.reply(3), Some(Reply::Done)));
    assert_eq!(rt; desk.line(3, b"add-net w T n")?, Ok(()));
    assert!(rt; matches!(desk.reply(3), Some(Reply::Taken)));
    assert_eq!(rt; desk.commit(3)?, Ok(1));
    assert_eq!(rt; desk.head().version(), 1);
    desk.release(3)?;
    assert_eq!(rt; desk.pin_at(3, 1)?, Ok(1));
    Ok(())
}

#[test]
fn the_later_of_two_commits_conflicts(rt: HostRuntime) -> Result<(), Fail> {
    let mut desk = opened(rt.alloc())?;
    for seat in 0..2 {
        assert_eq!(rt; desk.pin(seat)?, Ok(0));
        assert_eq!(rt; desk.begin(seat)?, Ok(()));
        assert_eq!(rt; desk.line(seat, b"set-prop w T net n K true")?, Ok(()));
    }
    assert_eq!(rt; desk.commit(1)?, Ok(1));
    let object = Object::Contents(CellId {
        lib: LibId(0),
        slot: 1,
    });
    assert_eq!(rt;
        desk.commit(0)?,
        Err(CommitError::Conflict { object, version: 1 })
    );
    assert_eq!(rt; desk.line(0, b"show-net w T n")?, Ok(()));
    desk.abandon(0)?;
    assert_eq!(rt; desk.seen(0).map(|seen| seen.version()), Some(0));
    Ok(())
}

#[test]
fn a_call_that_does_not_fit_is_a_wrong_use(rt: HostRuntime) -> Result<(), Fail> {
    let mut desk = opened(rt.alloc())?;
    assert_eq!(rt; desk.pin(64), Err(WrongUse));
    assert_eq!(rt; desk.release(0), Err(WrongUse));
    assert_eq!(rt; desk.begin(0), Err(WrongUse));
    assert_eq!(rt; desk.pin(63)?, Ok(0));
    assert_eq!(rt; desk.pin(63), Err(WrongUse));
    assert_eq!(rt; desk.line(63, b"show-cell w T"), Err(WrongUse));
    assert_eq!(rt; desk.commit(63), Err(WrongUse));
    assert_eq!(rt; desk.abandon(63), Err(WrongUse));
    assert_eq!(rt; desk.log().len(), 1);
    assert!(rt; desk.seen(0).is_none());
    Ok(())
}

#[test]
fn versions_that_no_seat_holds_are_dropped(rt: HostRuntime) -> Result<(), Fail> {
    let mut desk = opened(rt.alloc())?;
    assert_eq!(rt; desk.pin(0)?, Ok(0));
    assert_eq!(rt; desk.begin(0)?, Ok(()));
    assert_eq!(rt; desk.line(0, b"add-net w T m")?, Ok(()));
    assert_eq!(rt; desk.commit(0)?, Ok(1));
    assert_eq!(rt; desk.collect(5)?, Ok(0));
    desk.release(0)?;
    assert_eq!(rt; desk.collect(5)?, Ok(1));
    assert_eq!(rt; desk.pin_at(0, 0)?, Err(PinAtError::Gone { least: 1 }));
    assert_eq!(rt; desk.pin_at(0, 2)?, Err(PinAtError::NoVersion { head: 1 }));
    Ok(())
}

#[test]
fn a_line_says_one_operation(rt: HostRuntime) -> Result<(), Fail> {
    let mut desk = opened(rt.alloc())?;
    assert_eq!(rt; desk.pin(0)?, Ok(0));
    assert_eq!(rt; desk.begin(0)?, Ok(()));
    assert_eq!(rt; desk.line(0, b"commit")?, Err(LineError::BadLine));
    assert_eq!(rt;
        desk.line(0, b"add-net w T m\nadd-net w T o")?,
        Err(LineError::BadLine)
    );
    assert_eq!(rt; desk.line(0, b"")?, Err(LineError::BadLine));
    let long = vec![in rt.alloc(); b' '; 200_001]?;
    assert_eq!(rt; desk.line(0, long.as_slice())?, Err(LineError::TooLong));
    assert!(rt; desk.reply(0).is_none());
    Ok(())
}
