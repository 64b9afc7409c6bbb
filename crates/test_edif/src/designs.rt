//! The design, as it is planned.
use netlist_schema::Design;
use std::alloc::Global;
use std::test::Fail;
use test_hand_designs::{CellPlan, DesignPlan, Inside, design};

/// One instance of the first cell of the library.
const INNER: Inside = Inside {
    insts: &[(b"u2", 0, &[(b"INIT", b"0")])],
    nets: &[],
};

/// Two cells with the same inside, of which the second stands behind the cell above them.
const OUTER: Inside = Inside {
    insts: &[(b"u1", 1, &[]), (b"u3", 3, &[])],
    nets: &[],
};

const OUT_OF_ORDER: DesignPlan = DesignPlan {
    cells: &[
        CellPlan {
            id: b"LUT",
            ports: &[],
            inside: None,
        },
        CellPlan {
            id: b"B",
            ports: &[],
            inside: Some(INNER),
        },
        CellPlan {
            id: b"T",
            ports: &[],
            inside: Some(OUTER),
        },
        CellPlan {
            id: b"B_u1",
            ports: &[],
            inside: Some(INNER),
        },
    ],
    top: Some((b"T", 2)),
    notes: &[(&[b"u1", b"u2"], (b"INIT", b"1"))],
};

/// A library in which a cell stands before one that it places.
pub fn out_of_order(alloc: Global) -> Result<Design, Fail> {
    design(alloc, &OUT_OF_ORDER)
}
