//! Worked calls of two callers.
use crate::designs::{Edit, two_cells};
use crate::said::{Said, is_log};
use crate::steps::Step;
use crate::trio::{Phase, in_phases};
use netlist_schema::{CellId, LibId, Object};
use std::alloc::Global;
use std::sync::Wait;
use std::test::Fail;
use std::thread::Threads;

/// B is placed in A.
const DOWN: Edit<'static> = Edit::Inst { cell: "A", of: "B" };

/// A is placed in B.
const UP: Edit<'static> = Edit::Inst { cell: "B", of: "A" };

/// A net in A.
const NET: Edit<'static> = Edit::Net {
    cell: "A",
    net: "n",
};

/// What is in the cell A.
const INSIDE_A: Object = Object::Contents(CellId {
    lib: LibId(0),
    slot: 0,
});

/// Two edits of which each is right, and both together are a cycle. Of the pins that are then live each caller releases its own.
const CYCLE: [(u32, Said); 8] = [
    (0, Said::Pinned { pin: 0, version: 0 }),
    (1, Said::Pinned { pin: 1, version: 0 }),
    (0, Said::Done(1)),
    (
        1,
        Said::Conflict {
            object: INSIDE_A,
            version: 1,
        },
    ),
    (1, Said::Released),
    (1, Said::Pinned { pin: 2, version: 1 }),
    (0, Said::Released),
    (1, Said::Released),
];

fn in_order<'a>(first: &'a [Step<'a>], second: &'a [Step<'a>]) -> Phase<'a> {
    Phase {
        first,
        second,
        at_once: false,
    }
}

/// Whether phases on a new database of the two cells leave this log.
fn leave<R: Threads + Wait + Sync>(
    rt: &R,
    alloc: Global,
    phases: &[Phase],
    log: &[(u32, Said)],
) -> Result<bool, Fail> {
    let design = two_cells(alloc)?;
    match in_phases(rt, alloc, design, phases) {
        Some(core) => Ok(is_log(core.log(), log)),
        None => Ok(false),
    }
}

#[test]
fn the_second_of_two_edits_conflicts_and_is_then_a_cycle(rt: HostRuntime) -> Result<(), Fail> {
    let phases = [
        in_order(&[Step::Pin], &[Step::Pin]),
        in_order(&[Step::Do(DOWN)], &[Step::Do(UP)]),
        in_order(
            &[Step::Commit],
            &[Step::Commit, Step::Release, Step::Pin, Step::Refuse(UP)],
        ),
        in_order(&[Step::Release], &[]),
        in_order(&[], &[Step::Release]),
    ];
    assert!(rt; leave(&rt, rt.alloc(), &phases[..3], &CYCLE[..6])?);
    assert!(rt; leave(&rt, rt.alloc(), &phases[..4], &CYCLE[..7])?);
    assert!(rt; leave(&rt, rt.alloc(), &phases, &CYCLE)?);
    Ok(())
}

#[test]
fn edits_in_threads_of_their_own_conflict_alike(rt: HostRuntime) -> Result<(), Fail> {
    let phases = [
        in_order(&[Step::Pin], &[Step::Pin]),
        Phase {
            first: &[Step::Do(DOWN), Step::Commit],
            second: &[Step::Do(UP)],
            at_once: true,
        },
        Phase {
            first: &[],
            second: &[Step::Commit, Step::Release, Step::Pin, Step::Refuse(UP)],
            at_once: true,
        },
        in_order(&[Step::Release], &[Step::Release]),
    ];
    assert!(rt; leave(&rt, rt.alloc(), &phases, &CYCLE)?);
    Ok(())
}

/// A version that is held, and then not.
const HELD: [(u32, Said); 13] = [
    (0, Said::Pinned { pin: 0, version: 0 }),
    (1, Said::Pinned { pin: 1, version: 0 }),
    (1, Said::Done(1)),
    (1, Said::Released),
    (1, Said::Collected(0)),
    (1, Said::Pinned { pin: 2, version: 0 }),
    (1, Said::Released),
    (0, Said::Released),
    (1, Said::Collected(1)),
    (1, Said::Gone(1)),
    (1, Said::NoVersion(1)),
    (1, Said::Pinned { pin: 3, version: 1 }),
    (1, Said::Released),
];

#[test]
fn a_version_is_there_while_it_is_held(rt: HostRuntime) -> Result<(), Fail> {
    let phases = [
        in_order(
            &[Step::Pin],
            &[
                Step::Pin,
                Step::Do(NET),
                Step::Commit,
                Step::Release,
                Step::Collect,
                Step::PinAt(0),
                Step::Release,
            ],
        ),
        in_order(
            &[Step::Release],
            &[
                Step::Collect,
                Step::PinAt(0),
                Step::PinAt(2),
                Step::PinAt(1),
                Step::Release,
            ],
        ),
    ];
    assert!(rt; leave(&rt, rt.alloc(), &phases, &HELD)?);
    Ok(())
}
