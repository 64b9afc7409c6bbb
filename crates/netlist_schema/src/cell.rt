//! Cells: their ports, instances and nets.
use crate::ids::CellId;
use crate::listed::Listed;
use crate::property::{Name, Property};
use crate::text::Text;
use crate::width::Width;
use netlist_parts::{Parts, Row, Shared, SharedRow};

/// Which way a port goes.
#[derive(Clone, Copy, Debug, PartialEq, Eq)]
pub enum Direction {
    Input,
    Output,
    Inout,
}

/// A port of a cell. An array has a width; a scalar has none, and one bit.
#[derive(Debug, PartialEq, Eq)]
pub struct Port {
    pub name: Name,
    pub array: Option<Width>,
    pub direction: Option<Direction>,
    pub designator: Option<Text>,
    pub properties: Row<Property>,
}

impl Drop for Port {
    fn drop(self) {
        let Port {
            name: _,
            array: _,
            direction: _,
            designator: _,
            properties: _,
        } = self;
    }
}

/// One bit of a port, by the places of the instance in the contents, of the port in its cell and of the bit in the port,
/// each from 0. No instance means a port of the cell itself.
#[derive(Clone, Copy, Debug, PartialEq, Eq)]
pub struct End {
    pub inst: Option<u32>,
    pub port: u32,
    pub bit: u32,
}

/// An instance of the cell `of`.
#[derive(Debug, PartialEq, Eq)]
pub struct Inst {
    pub name: Name,
    pub of: CellId,
    pub designator: Option<Text>,
    pub properties: Row<Property>,
}

impl Drop for Inst {
    fn drop(self) {
        let Inst {
            name: _,
            of: _,
            designator: _,
            properties: _,
        } = self;
    }
}

/// A net, with the bits that it joins, in order.
#[derive(Debug, PartialEq, Eq)]
pub struct Net {
    pub name: Name,
    pub ends: Row<End>,
    pub properties: SharedRow<Property>,
}

impl Drop for Net {
    fn drop(self) {
        let Net {
            name: _,
            ends: _,
            properties: _,
        } = self;
    }
}

/// What is inside a cell.
#[derive(Debug, PartialEq, Eq, Drop)]
pub struct Contents {
    pub insts: Parts<Listed<Inst>>,
    pub nets: Parts<Listed<Net>>,
}

/// The kind of a cell.
#[derive(Clone, Copy, Debug, PartialEq, Eq)]
pub enum CellKind {
    Generic,
    Tie,
    Ripper,
}

/// A cell with its one view. A leaf has no contents.
#[derive(Debug, PartialEq, Eq)]
pub struct CellBody {
    pub name: Name,
    pub kind: CellKind,
    pub properties: Row<Property>,
    pub view: Name,
    pub view_properties: Row<Property>,
    pub interface_properties: Row<Property>,
    pub ports: Row<Port>,
    pub contents: Option<Shared<Contents>>,
}

impl Drop for CellBody {
    fn drop(self) {
        let CellBody {
            name: _,
            kind: _,
            properties: _,
            view: _,
            view_properties: _,
            interface_properties: _,
            ports: _,
            contents: _,
        } = self;
    }
}
