//! The design, and an edit of it.
use edit_spec::{CellName, Op};
use netlist_schema::{Design, Ident};
use std::alloc::Global;
use std::process::Abort;
use std::test::Fail;
use test_hand_designs::{CellPlan, DesignPlan, Inside, design};

const EMPTY: Inside = Inside {
    insts: &[],
    nets: &[],
};

const BLOCKS: DesignPlan = DesignPlan {
    cells: &[
        CellPlan {
            id: b"A",
            ports: &[],
            inside: Some(EMPTY),
        },
        CellPlan {
            id: b"B",
            ports: &[],
            inside: Some(EMPTY),
        },
        CellPlan {
            id: b"T",
            ports: &[],
            inside: Some(Inside {
                insts: &[(b"a", 0, &[]), (b"b", 1, &[])],
                nets: &[],
            }),
        },
    ],
    top: Some((b"T", 2)),
    notes: &[],
};

/// Two empty blocks, each placed once in the top.
pub fn blocks(alloc: Global) -> Result<Design, Fail> {
    design(alloc, &BLOCKS)
}

fn ident(rt: &impl Abort, alloc: Global, text: &[u8]) -> Ident {
    let id = Ident::of(alloc, text).expect(rt, "memory for a name");
    id.expect(rt, "a name")
}

/// Adds a net to the second block.
pub fn add_net(rt: &impl Abort, alloc: Global) -> Op {
    let cell = CellName {
        lib: ident(rt, alloc, b"w"),
        cell: ident(rt, alloc, b"B"),
    };
    Op::AddNet {
        cell,
        net: ident(rt, alloc, b"m"),
    }
}
