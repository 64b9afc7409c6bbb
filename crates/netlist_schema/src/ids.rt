//! Places of libraries and cells, and the objects of a design.
ghost use Rattle.std.specs.Prelude.{◌≡◌, ◌↔◌, IsTrue};

/// A library, by its place in the design, from 0.
#[derive(Clone, Copy, Debug, PartialEq, Eq, PartialOrd, Ord)]
pub struct LibId(pub u32);

/// A cell, by its library and its place in that library, from 0. Cells are never removed or moved, so an id stays good.
#[derive(Clone, Copy, Debug, PartialEq, Eq, PartialOrd, Ord)]
pub struct CellId {
    pub lib: LibId,
    pub slot: u32,
}

/// A part of a design that is read and written as a whole: the identifiers of a library's cells, a cell as seen from
/// outside, what is inside a cell, or the notes. Directories come first, then interfaces, contents and the notes; each by
/// its number.
#[derive(Clone, Copy, Debug, PartialEq, Eq, PartialOrd, Ord)]
pub enum Object {
    Directory(LibId),
    Interface(CellId),
    Contents(CellId),
    Notes,
}

impl Object {
    /// Whether the two are one object.
    pub fn is(self, other: Object) -> bool
        ensures { IsTrue result ↔ (self ≡ other) }
    {
        self == other
    }
}
