//! Worked designs.
use crate::plans::{CellPlan, DesignPlan, Inside, design};
use netlist_schema::{Design, Direction};
use std::alloc::Global;
use std::test::Fail;

/// A leaf with a pin.
const LAMP: CellPlan = CellPlan {
    id: b"P",
    ports: &[(b"a", Some(Direction::Input))],
    inside: None,
};

/// A cell that joins its two ports.
const THROUGH: CellPlan = CellPlan {
    id: b"F",
    ports: &[
        (b"p", Some(Direction::Inout)),
        (b"q", Some(Direction::Inout)),
    ],
    inside: Some(Inside {
        insts: &[],
        nets: &[(b"x", &[(None, 0), (None, 1)])],
    }),
};

/// A cell whose port leads to the pin of a leaf.
const SOCKET: CellPlan = CellPlan {
    id: b"V",
    ports: &[(b"r", Some(Direction::Inout))],
    inside: Some(Inside {
        insts: &[(b"l", 0, &[])],
        nets: &[(b"y", &[(None, 0), (Some(0), 0)])],
    }),
};

/// Two nets that meet in the cell that joins its ports.
const TABLE: CellPlan = CellPlan {
    id: b"T",
    ports: &[],
    inside: Some(Inside {
        insts: &[(b"u", 1, &[]), (b"v", 2, &[])],
        nets: &[
            (b"X", &[(Some(0), 0)]),
            (b"Y", &[(Some(0), 1), (Some(1), 0)]),
        ],
    }),
};

const BOARD: DesignPlan = DesignPlan {
    cells: &[LAMP, THROUGH, SOCKET, TABLE],
    top: Some((b"T", 3)),
    notes: &[],
};

/// The first port and the third are at the two ends of one feedthrough, the second is at an end of another, and the fourth is at none.
const STRIP: CellPlan = CellPlan {
    id: b"S",
    ports: &[(b"a", None), (b"b", None), (b"c", None), (b"d", None)],
    inside: Some(Inside {
        insts: &[(b"u", 0, &[]), (b"v", 0, &[])],
        nets: &[
            (b"A", &[(None, 0), (Some(0), 0)]),
            (b"B", &[(None, 1), (Some(1), 1)]),
            (b"C", &[(None, 2), (Some(0), 1)]),
        ],
    }),
};

const BESIDE: DesignPlan = DesignPlan {
    cells: &[THROUGH, STRIP],
    top: Some((b"S", 1)),
    notes: &[],
};

const BARE: DesignPlan = DesignPlan {
    cells: &[],
    top: None,
    notes: &[],
};

/// A board with a feedthrough.
pub fn board(alloc: Global) -> Result<Design, Fail> {
    design(alloc, &BOARD)
}

/// Two feedthroughs beside each other.
pub fn beside(alloc: Global) -> Result<Design, Fail> {
    design(alloc, &BESIDE)
}

/// A design with no cell and no top.
pub fn bare(alloc: Global) -> Result<Design, Fail> {
    design(alloc, &BARE)
}
