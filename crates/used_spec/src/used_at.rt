//! A place at which a cell is used.
use netlist_schema::CellId;

/// One use of a cell: the cell in whose contents an instance of it stands, and the instance's place there, from 0.
#[derive(Clone, Copy, Debug, PartialEq, Eq)]
pub struct UsedAt {
    pub cell: CellId,
    pub inst: u32,
}
