//! Nets as they are written.
use netlist_schema::{Name, Property, Row, SharedRow, Width};

/// Some bits of one port, one after another.
#[derive(Clone, Copy, Debug, PartialEq, Eq)]
pub struct Stretch {
    /// The place of the instance, or none for a port of the cell itself.
    pub inst: Option<u32>,
    /// The place of the port.
    pub port: u32,
    /// The first bit.
    pub first: u32,
    /// How many bits.
    pub width: u32,
}

/// A net as it is written: by itself, or as an array, which stands for a row of nets.
#[derive(Debug, PartialEq, Eq, Drop)]
pub struct NetForm {
    /// The name, or that of the array.
    pub name: Name,
    /// The width of an array, which is the number of nets in the row.
    pub array: Option<Width>,
    /// What each net of the row joins one bit of, in order.
    pub joined: Row<Stretch>,
    /// The properties of each net of the row.
    pub properties: SharedRow<Property>,
}
