//! Port classes.
use net_classes::Classes;
use netlist_schema::{CellId, Design, LibId, Shown};
use std::alloc::Global;
use std::process::Abort;
use std::test::Fail;
use test_hand_designs::{beside, board};

/// A bit of the cell at a place of the library, and its class.
type ClassRow = (u32, u32, Option<u32>);

const THROUGH: [ClassRow; 4] = [
    (0, 0, None),
    (1, 0, Some(0)),
    (1, 1, Some(0)),
    (2, 0, Some(0)),
];

const STRIP: [ClassRow; 4] = [
    (1, 0, Some(0)),
    (1, 1, Some(1)),
    (1, 2, Some(0)),
    (1, 3, None),
];

/// Bits have these classes.
fn have_classes(rt: &impl Abort, classes: &Classes, rows: &[ClassRow]) {
    for (slot, bit, class) in rows {
        let cell = CellId {
            lib: LibId(0),
            slot: *slot,
        };
        assert_eq!(rt;
            classes.port_class(cell, *bit),
            *class,
            "bit {bit} of {slot}"
        );
    }
}

/// Bits of a design have these classes.
fn has_classes(rt: &impl Abort, alloc: Global, design: &Design, rows: &[ClassRow]) {
    let top = design.top().expect(rt, "a top").cell;
    let classes = Classes::of(alloc, design, top).expect(rt, "memory");
    have_classes(rt, &classes, rows);
}

#[test]
fn a_feedthrough_joins_the_bits_at_its_ends(rt: HostRuntime) -> Result<(), Fail> {
    let board = board(rt.alloc())?;
    has_classes(&rt, rt.alloc(), &board, &THROUGH);
    Ok(())
}

#[test]
fn it_joins_no_others(rt: HostRuntime) -> Result<(), Fail> {
    let beside = beside(rt.alloc())?;
    has_classes(&rt, rt.alloc(), &beside, &STRIP);
    Ok(())
}
