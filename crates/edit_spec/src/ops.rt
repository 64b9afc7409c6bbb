//! Operations.
use edit_rules_spec::{CellName, EndName};
use netlist_schema::{Direction, Ident, Property, Row, Width};

/// A port of a new cell. An array has a width; a scalar has none.
#[derive(Debug, PartialEq, Eq, Drop)]
pub struct PortDecl {
    pub name: Ident,
    pub direction: Option<Direction>,
    pub array: Option<Width>,
}

/// Whose property is set: the cell's own, that of one of its instances, or that of one of its nets.
#[derive(Debug, PartialEq, Eq, Drop)]
pub enum Target {
    Whole,
    Inst(Ident),
    Net(Ident),
}

/// An operation on a design. `cell` is the cell whose contents are shown or changed. New cells, instances, nets, ends,
/// properties and notes go last. A refused operation changes nothing. `docs/operations.md` has the table of refusals.
#[derive(Debug, PartialEq, Eq)]
pub enum Op {
    /// Counts the ports, instances and nets of a cell.
    ShowCell {
        cell: CellName,
    },
    /// Gives the ends of a net by name.
    ShowNet {
        cell: CellName,
        net: Ident,
    },
    /// Gives an instance's cell and its own properties.
    ShowInst {
        cell: CellName,
        inst: Ident,
    },
    /// Adds a cell with these ports, as a leaf or with empty contents.
    AddCell {
        cell: CellName,
        leaf: bool,
        ports: Row<PortDecl>,
    },
    /// Adds a net without ends.
    AddNet {
        cell: CellName,
        net: Ident,
    },
    /// Removes a net.
    DropNet {
        cell: CellName,
        net: Ident,
    },
    /// Adds an instance of the cell `of`.
    AddInst {
        cell: CellName,
        inst: Ident,
        of: CellName,
    },
    /// Removes an instance, its ends, and each note whose path goes through it or ends at it.
    DropInst {
        cell: CellName,
        inst: Ident,
    },
    /// Adds an end to a net.
    Join {
        cell: CellName,
        net: Ident,
        end: EndName,
    },
    /// Removes an end from its net.
    Cut {
        cell: CellName,
        end: EndName,
    },
    /// Replaces the property of equal key in place, else adds it.
    SetProp {
        cell: CellName,
        target: Target,
        property: Property,
    },
    /// Replaces the note of equal path and key in place, else adds it. The path has the names of instances from the top.
    SetNote {
        path: Row<Ident>,
        property: Property,
    },
    /// Removes the note of this path and key.
    DropNote {
        path: Row<Ident>,
        key: Ident,
    },
    /// Gives each occurrence of a block below the top a cell of its own. A block is a cell that is no leaf.
    Uniquify,
    /// Gives each block at the end of a step of the path a copy. The path has the names of instances from the top.
    UniquePath {
        path: Row<Ident>,
    },
    /// Dissolves an instance into the cell that holds it: `docs/ungroup.md`.
    Ungroup {
        cell: CellName,
        inst: Ident,
    },
}

impl Drop for Op {
    fn drop(self) {
        match self {
            Op::ShowCell { cell: _ } => {}
            Op::ShowNet { cell: _, net: _ } => {}
            Op::ShowInst { cell: _, inst: _ } => {}
            Op::AddCell {
                cell: _,
                leaf: _,
                ports: _,
            } => {}
            Op::AddNet { cell: _, net: _ } => {}
            Op::DropNet { cell: _, net: _ } => {}
            Op::AddInst {
                cell: _,
                inst: _,
                of: _,
            } => {}
            Op::DropInst { cell: _, inst: _ } => {}
            Op::Join {
                cell: _,
                net: _,
                end: _,
            } => {}
            Op::Cut { cell: _, end: _ } => {}
            Op::SetProp {
                cell: _,
                target: _,
                property: _,
            } => {}
            Op::SetNote {
                path: _,
                property: _,
            } => {}
            Op::DropNote { path: _, key: _ } => {}
            Op::Uniquify => {}
            Op::UniquePath { path: _ } => {}
            Op::Ungroup { cell: _, inst: _ } => {}
        }
    }
}
