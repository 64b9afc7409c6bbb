//! Changes that are written at once.
use netlist_schema::{CellBody, CellId, Contents, Inst, Net, Note, Property, Row};

/// A change of a cell.
#[derive(Drop)]
pub enum CellChange {
    /// Adds a cell. It writes the directory and the cell, inside and out.
    Fresh {
        id: CellId,
        body: CellBody,
    },
    /// Replaces the cell's own properties. It writes what is seen from outside.
    Face {
        id: CellId,
        properties: Row<Property>,
    },
    /// Replaces the contents of a cell that is no leaf. It writes what is inside.
    Inner {
        id: CellId,
        contents: Contents,
    },
    /// Puts a net at a place in the contents of a cell that is no leaf: it replaces the one there, or goes behind the last,
    /// where the place is their number. It writes what is inside.
    Net {
        id: CellId,
        place: u32,
        net: Net,
    },
    /// Puts an instance at a place in the contents of a cell that is no leaf: it replaces the one there, or goes behind the
    /// last, where the place is their number. It writes what is inside.
    Inst {
        id: CellId,
        place: u32,
        inst: Inst,
    },
}

/// Changes of cells, each made in the design that the ones before it leave, and notes where they are given; all are written
/// together.
#[derive(Drop)]
pub struct Change {
    pub cells: Row<CellChange>,
    pub notes: Option<Row<Note>>,
}
