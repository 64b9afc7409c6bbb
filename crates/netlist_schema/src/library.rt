//! Libraries, the top, and notes.
use crate::cell::CellBody;
use crate::ident::Ident;
use crate::ids::CellId;
use crate::property::{Name, Property};
use netlist_parts::Row;

/// A library without its cells. An external library was written as `external`.
#[derive(Debug, PartialEq, Eq)]
pub struct LibHead {
    pub name: Name,
    pub external: bool,
}

impl Drop for LibHead {
    fn drop(self) {
        let LibHead {
            name: _,
            external: _,
        } = self;
    }
}

/// A library with its cells.
#[derive(Debug, PartialEq, Eq, Drop)]
pub struct Lib {
    pub head: LibHead,
    pub cells: Row<CellBody>,
}

/// The top of the hierarchy: the name of the design, its cell, and its properties.
#[derive(Debug, PartialEq, Eq)]
pub struct TopHead {
    pub name: Name,
    pub cell: CellId,
    pub properties: Row<Property>,
}

impl Drop for TopHead {
    fn drop(self) {
        let TopHead {
            name: _,
            cell: _,
            properties: _,
        } = self;
    }
}

/// A property of one occurrence, which the path names by the identifiers of instances, from the top downwards.
#[derive(Debug, PartialEq, Eq)]
pub struct Note {
    pub path: Row<Ident>,
    pub property: Property,
}

impl Drop for Note {
    fn drop(self) {
        let Note {
            path: _,
            property: _,
        } = self;
    }
}
