//! A design that is read and edited cell by cell, with a record of what was read and written.
#![tactic(auto)]

mod cells;
mod change;
mod face;
mod look;
mod marks;
mod parts;
mod patch;
mod plain;
mod put;
mod seek;

pub use cells::Cells;
pub use change::{CellChange, Change};
pub use face::Face;
pub use look::{contents_of, face_of, inside, object_for, seen};
pub use marks::Marks;
pub use parts::{contents_object, face_object};
pub use patch::patched;
pub use plain::PlainCells;
pub use seek::{cell_in, is_free, is_same, lib_named};
