//! Names in operations, and replies.
use netlist_schema::{Ident, Property, Row};

/// A cell, by the name of its library and its own. Both are matched byte for byte.
#[derive(Debug, PartialEq, Eq)]
pub struct CellName {
    pub lib: Ident,
    pub cell: Ident,
}

impl Drop for CellName {
    fn drop(self) {
        let CellName { lib: _, cell: _ } = self;
    }
}

/// A bit of a port, by the names of the instance and the port, and the bit's place in the port, from 0. No instance means
/// a port of the cell itself. A scalar port has bit 0 alone.
#[derive(Debug, PartialEq, Eq)]
pub struct EndName {
    pub inst: Option<Ident>,
    pub port: Ident,
    pub bit: u32,
}

impl Drop for EndName {
    fn drop(self) {
        let EndName {
            inst: _,
            port: _,
            bit: _,
        } = self;
    }
}

/// What an operation replies. The first five are given where it is done; the others refuse it.
#[derive(Debug, PartialEq, Eq)]
pub enum Reply {
    /// The change is made.
    Done,
    /// The numbers of ports (not bits), instances and nets of a cell. A leaf has no instances and no nets.
    Cell {
        ports: u32,
        insts: u32,
        nets: u32,
        leaf: bool,
    },
    /// The ends of a net, in order.
    Net {
        ends: Row<EndName>,
    },
    /// An instance's cell and its own properties, in order.
    Inst {
        of: CellName,
        properties: Row<Property>,
    },
    /// The number of cells that were copied.
    Copies(u32),
    /// No library has the name.
    NoLib,
    /// The library has no cell of the name.
    NoCell,
    /// The cell has no instance of the name.
    NoInst,
    /// The cell has no net of the name.
    NoNet,
    /// The end's cell has no port of the name.
    NoPort,
    /// The port has only this many bits.
    BadBit {
        width: u32,
    },
    /// The name is taken, where the case of ASCII letters is ignored.
    Taken,
    /// This net of the cell has the bit already, be it the same net.
    AlreadyJoined {
        net: Ident,
    },
    /// No net of the cell has the bit.
    NotJoined,
    /// The cell is a leaf.
    IsLeaf,
    /// The cell would be below itself.
    IsCyclic,
    /// The library of the placed cell comes after that of the cell that would hold the instance.
    LaterLibrary,
    /// The path has no step, or leads nowhere.
    NoPath,
    /// No note has the path and the key.
    NoNote,
    /// The design has no top.
    NoTop,
    /// There would be more than `limit` of what is added.
    TooMany {
        limit: u64,
    },
}

impl Drop for Reply {
    fn drop(self) {
        match self {
            Reply::Done => {}
            Reply::Cell {
                ports: _,
                insts: _,
                nets: _,
                leaf: _,
            } => {}
            Reply::Net { ends: _ } => {}
            Reply::Inst {
                of: _,
                properties: _,
            } => {}
            Reply::Copies(_) => {}
            Reply::NoLib => {}
            Reply::NoCell => {}
            Reply::NoInst => {}
            Reply::NoNet => {}
            Reply::NoPort => {}
            Reply::BadBit { width: _ } => {}
            Reply::Taken => {}
            Reply::AlreadyJoined { net: _ } => {}
            Reply::NotJoined => {}
            Reply::IsLeaf => {}
            Reply::IsCyclic => {}
            Reply::LaterLibrary => {}
            Reply::NoPath => {}
            Reply::NoNote => {}
            Reply::NoTop => {}
            Reply::TooMany { limit: _ } => {}
        }
    }
}
