//! A cell as seen from outside.
use netlist_schema::{CellKind, Name, Port, Property, Row};

/// What is seen of a cell without a look inside.
#[derive(Clone, Copy)]
pub struct Face<'a> {
    pub name: &'a Name,
    pub kind: CellKind,
    pub properties: &'a Row<Property>,
    pub ports: &'a Row<Port>,
    /// It has no contents.
    pub leaf: bool,
}
