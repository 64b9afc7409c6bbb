//! What is seen of a cell, and what is inside.
ghost use Rattle.std.specs.Prelude.{◌≡◌, ◌≤◌, ◌↔◌, IfSome, length};
ghost use Rattle.std.specs.Option.{option_copied, option_map};
ghost use Rattle.netlist_schema.specs.Limits.{IsCellWithinLimits};
ghost use Rattle.netlist_schema.specs.Types.{Object};
ghost use Rattle.netlist_schema.specs.declared.limits.TheConstants.{MOST_PORTS};
ghost use Rattle.edit_rules_spec.specs.Reading.{IsFor};
ghost use Rattle.edit_rules_spec.specs.Seen.{contents_at};
ghost use Rattle.edit_cells.specs.Parts.{HasLimits, seen_at, seen_of, shown_by};

use crate::face::Face;
use crate::parts::face_object;
use netlist_schema::{CellBody, CellId, Contents, Design, LibId, Object, Shown};

/// A body from outside.
pub fn seen(body: &CellBody) -> Face<'_>
    ensures { shown_by result ≡ seen_of body.now }
{
    Face {
        name: &body.name,
        kind: body.kind,
        properties: &body.properties,
        ports: &body.ports,
        leaf: body.contents.is_none(),
    }
}

/// A cell from outside.
#[tactic(auto, using(crate::proofs::Looks::found_face, crate::proofs::Looks::no_face))]
pub fn face_of(design: &Design, id: CellId) -> Option<Face<'_>>
    ensures found { option_map shown_by result ≡ seen_at design.now id }
    ensures limit { IfSome result (λ face. length face.ports.now ≤ MOST_PORTS) }
{
    match design.cell(id) {
        Some(body) => Some(seen(body)),
        None => None,
    }
}

/// The contents of a body.
pub fn inside(body: &CellBody) -> Option<&Contents>
    requires { IsCellWithinLimits body.now }
    ensures found { option_copied result ≡ body.now.contents }
    ensures limits { IfSome result (λ contents. HasLimits contents.now) }
{
    match &body.contents {
        Some(contents) => Some(contents),
        None => None,
    }
}

/// The contents of a cell.
pub fn contents_of(design: &Design, id: CellId) -> Option<&Contents>
    ensures found { option_copied result ≡ contents_at design.now id }
    ensures limits { IfSome result (λ contents. HasLimits contents.now) }
{
    match design.cell(id) {
        Some(body) => inside(body),
        None => None,
    }
}

/// The object that a look for a name reads.
pub fn object_for(lib: LibId, found: Option<CellId>) -> Object
    ensures { (o : Object) → IsFor found (Some lib) o ↔ (o ≡ result) }
{
    match found {
        Some(id) => face_object(id),
        None => Object::Directory(lib),
    }
}
