//! Designs of one library, and edits of them.
use edit_spec::{CellName, EndName, Op, Target};
use netlist_schema::{CellId, Design, Direction, Ident, LibId, Name, Property, Row, Value};
use std::alloc::Global;
use std::process::Abort;
use std::test::Fail;
use test_hand_designs::{CellPlan, DesignPlan, Inside, design};

const EMPTY: Option<Inside<'static>> = Some(Inside {
    insts: &[],
    nets: &[],
});

const A: CellPlan<'static> = CellPlan {
    id: b"A",
    ports: &[],
    inside: EMPTY,
};

const B: CellPlan<'static> = CellPlan {
    id: b"B",
    ports: &[],
    inside: EMPTY,
};

/// An empty block with a port.
const WITH_PORT: CellPlan<'static> = CellPlan {
    id: b"A",
    ports: &[(b"p", Some(Direction::Inout))],
    inside: EMPTY,
};

/// A block that places the first one, and has a net.
const T: CellPlan<'static> = CellPlan {
    id: b"T",
    ports: &[],
    inside: Some(Inside {
        insts: &[(b"a", 0, &[])],
        nets: &[(b"x", &[])],
    }),
};

const ONE: DesignPlan<'static> = DesignPlan {
    cells: &[A],
    top: None,
    notes: &[],
};

const TWO: DesignPlan<'static> = DesignPlan {
    cells: &[A, B],
    top: None,
    notes: &[],
};

const PLACED: DesignPlan<'static> = DesignPlan {
    cells: &[WITH_PORT, T],
    top: None,
    notes: &[],
};

/// An empty block.
pub fn one(alloc: Global) -> Result<Design, Fail> {
    design(alloc, &ONE)
}

/// Two empty blocks.
pub fn two(alloc: Global) -> Result<Design, Fail> {
    design(alloc, &TWO)
}

/// A block with a port, and another that places it and has a net.
pub fn placed(alloc: Global) -> Result<Design, Fail> {
    design(alloc, &PLACED)
}

/// An edit of the library, by names. The first is the cell that is changed.
#[derive(Clone, Copy)]
pub enum Edit {
    /// Adds a net.
    Net(&'static str, &'static str),
    /// Adds an instance, of the cell that comes last.
    Inst(&'static str, &'static str, &'static str),
    /// Joins to a net, of an instance, a port.
    Join(&'static str, &'static str, &'static str, &'static str),
    /// Sets a property of the cell itself.
    Own(&'static str, &'static str),
    /// Adds the cell, as a leaf without ports.
    Cell(&'static str),
}

/// The first cell of the library.
pub const FIRST: CellId = CellId {
    lib: LibId(0),
    slot: 0,
};

/// An identifier.
pub fn ident(rt: &impl Abort, alloc: Global, text: &str) -> Ident {
    let id = Ident::of(alloc, text.as_bytes()).expect(rt, "memory for a name");
    id.expect(rt, "a name")
}

/// A cell of the library.
fn cell(rt: &impl Abort, alloc: Global, name: &str) -> CellName {
    CellName {
        lib: ident(rt, alloc, "w"),
        cell: ident(rt, alloc, name),
    }
}

/// A property with a number.
fn property(rt: &impl Abort, alloc: Global, key: &str) -> Property {
    Property {
        key: Name {
            id: ident(rt, alloc, key),
            shown: None,
        },
        value: Value::Integer(1),
        owner: None,
    }
}

/// The first bit of the port of an instance.
fn end(rt: &impl Abort, alloc: Global, inst: &str, port: &str) -> EndName {
    EndName {
        inst: Some(ident(rt, alloc, inst)),
        port: ident(rt, alloc, port),
        bit: 0,
    }
}

/// The operation of an edit.
pub fn op_of(rt: &impl Abort, alloc: Global, edit: Edit) -> Op {
    match edit {
        Edit::Net(name, net) => Op::AddNet {
            cell: cell(rt, alloc, name),
            net: ident(rt, alloc, net),
        },
        Edit::Inst(name, inst, of) => Op::AddInst {
            cell: cell(rt, alloc, name),
            inst: ident(rt, alloc, inst),
            of: cell(rt, alloc, of),
        },
        Edit::Join(name, net, inst, port) => Op::Join {
            cell: cell(rt, alloc, name),
            net: ident(rt, alloc, net),
            end: end(rt, alloc, inst, port),
        },
        Edit::Cell(name) => Op::AddCell {
            cell: cell(rt, alloc, name),
            leaf: true,
            ports: Row::of(Vec::new(alloc)),
        },
        Edit::Own(name, key) => Op::SetProp {
            cell: cell(rt, alloc, name),
            target: Target::Whole,
            property: property(rt, alloc, key),
        },
    }
}
