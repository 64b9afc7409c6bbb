//! The design that the callers edit, two cells with nothing in them, and their edits.
use edit_spec::{CellName, Op};
use netlist_schema::{Design, Ident};
use std::alloc::Global;
use std::test::Fail;
use test_hand_designs::{CellPlan, DesignPlan, Inside, design};

const EMPTY: Option<Inside<'static>> = Some(Inside {
    insts: &[],
    nets: &[],
});

const TWO_CELLS: DesignPlan<'static> = DesignPlan {
    cells: &[
        CellPlan {
            id: b"A",
            ports: &[],
            inside: EMPTY,
        },
        CellPlan {
            id: b"B",
            ports: &[],
            inside: EMPTY,
        },
    ],
    top: None,
    notes: &[],
};

/// The design of these two cells, with no top.
pub fn two_cells(alloc: Global) -> Result<Design, Fail> {
    design(alloc, &TWO_CELLS)
}

fn ident(alloc: Global, bytes: &[u8]) -> Option<Ident> {
    match Ident::of(alloc, bytes) {
        Ok(id) => id,
        Err(_) => None,
    }
}

/// A cell of the library w.
fn cell(alloc: Global, name: &str) -> Option<CellName> {
    Some(CellName {
        lib: ident(alloc, b"w")?,
        cell: ident(alloc, name.as_bytes())?,
    })
}

/// An edit of a cell.
#[derive(Clone, Copy)]
pub enum Edit<'a> {
    /// Adds a net to the cell.
    Net { cell: &'a str, net: &'a str },
    /// Adds the instance i of another cell to the cell.
    Inst { cell: &'a str, of: &'a str },
}

/// The operation that an edit is.
pub fn op_of(alloc: Global, edit: &Edit) -> Option<Op> {
    match edit {
        Edit::Net { cell: name, net } => Some(Op::AddNet {
            cell: cell(alloc, name)?,
            net: ident(alloc, net.as_bytes())?,
        }),
        Edit::Inst { cell: name, of } => Some(Op::AddInst {
            cell: cell(alloc, name)?,
            inst: ident(alloc, b"i")?,
            of: cell(alloc, of)?,
        }),
    }
}
