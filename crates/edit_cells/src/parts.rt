//! The objects of a cell.
ghost use Rattle.std.specs.Prelude.{◌≡◌};
ghost use Rattle.edit_rules_spec.specs.Objects.{contents_object, face_object};

use netlist_schema::{CellId, Object};

/// The object that a look at a cell from outside reads.
pub fn face_object(id: CellId) -> Object
    ensures { result ≡ face_object id }
{
    Object::Interface(id)
}

/// The object that a look inside a cell reads.
pub fn contents_object(id: CellId) -> Object
    ensures { result ≡ contents_object id }
{
    Object::Contents(id)
}
