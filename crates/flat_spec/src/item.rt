//! The items of a flattening.
ghost use Rattle.flat_spec.specs.Typed.{IsTypedItem, IsTypedNetAt};

use crate::path::Path;
use netlist_schema::{CellId, Copied, NoMemory, Property, Row};
use std::alloc::Global;

/// A net of an occurrence: the path of the occurrence, and the net's place in the contents there, from 0.
#[derive(Debug, PartialEq, Eq)]
pub struct NetAt {
    pub path: Path,
    pub net: u32,
}

impl Drop for NetAt {
    fn drop(self) {
        let NetAt { path: _, net: _ } = self;
    }
}

/// One item of a flattening.
#[derive(Debug, PartialEq, Eq)]
pub enum Item {
    /// An occurrence, with its cell and its effective properties.
    Enter {
        path: Path,
        cell: CellId,
        properties: Row<Property>,
    },
    /// A net of the occurrence at the path, with the first net that is connected with it.
    Net {
        path: Path,
        net: u32,
        first: NetAt,
    },
    /// A bit of a port of the occurrence at the path, with the first net that is connected with the net that joins the bit.
    /// There is none where no net joins it.
    Pin {
        path: Path,
        port: u32,
        bit: u32,
        first: Option<NetAt>,
    },
}

impl Drop for Item {
    fn drop(self) {
        match self {
            Item::Enter {
                path: _,
                cell: _,
                properties: _,
            } => {}
            Item::Net {
                path: _,
                net: _,
                first: _,
            } => {}
            Item::Pin {
                path: _,
                port: _,
                bit: _,
                first: _,
            } => {}
        }
    }
}

impl Copied for NetAt {
    ghost typed = { IsTypedNetAt };

    fn copy(&self, alloc: Global) -> Result<NetAt, NoMemory> {
        Ok(NetAt {
            path: self.path.copy(alloc)?,
            net: self.net,
        })
    }
}

impl Copied for Item {
    ghost typed = { IsTypedItem };

    fn copy(&self, alloc: Global) -> Result<Item, NoMemory> {
        match self {
            Item::Enter {
                path,
                cell,
                properties,
            } => Ok(Item::Enter {
                path: path.copy(alloc)?,
                cell: *cell,
                properties: properties.copy(alloc)?,
            }),
            Item::Net { path, net, first } => Ok(Item::Net {
                path: path.copy(alloc)?,
                net: *net,
                first: first.copy(alloc)?,
            }),
            Item::Pin {
                path,
                port,
                bit,
                first,
            } => Ok(Item::Pin {
                path: path.copy(alloc)?,
                port: *port,
                bit: *bit,
                first: first.copy(alloc)?,
            }),
        }
    }
}
