//! Look-ups by name in a design.
ghost use Rattle.std.specs.Prelude.{◌≡◌, IfSome, ◌≤◌, length, not, position};
ghost use Rattle.std.specs.List.{list_any};
ghost use Rattle.std.specs.Option.{option_copied};
ghost use Rattle.netlist_schema.specs.Design.{cells_in, lib_at};
ghost use Rattle.netlist_schema.specs.Names.{cell_names};
ghost use Rattle.netlist_schema.specs.Valid.{IsValid};
ghost use Rattle.netlist_schema.specs.declared.limits.TheConstants.{MOST_CELLS};
ghost use Rattle.edit_rules_spec.specs.Find.{cell_in, is_name, is_same, lib_named};

use netlist_schema::{CellBody, CellId, Design, Ident, Lib, LibId, Row};

/// The place of the first library with a name.
fn lib_position(libs: &Row<Lib>, name: &Ident) -> Option<usize>
    ensures { result ≡ position (λ lib. is_name lib.head.name.id name.now) libs.now }
{
    libs.as_slice()
        .iter()
        .position(|lib| lib.head.name.id == *name)
}

/// The place of the first cell with a name.
fn cell_position(cells: &Row<CellBody>, name: &Ident) -> Option<usize>
    ensures { result ≡ position (λ cell. is_name cell.name.id name.now) cells.now }
{
    cells
        .as_slice()
        .iter()
        .position(|cell| cell.name.id == *name)
}

/// The library at a place.
#[tactic(auto, using(crate::proofs::Places::few_cells))]
fn lib_at(design: &Design, lib: LibId) -> Option<&Lib>
    ensures value { option_copied result ≡ lib_at design.now lib }
    ensures few { IfSome result (λ found. length found.now.cells ≤ MOST_CELLS) }
{
    design.libs().as_slice().get(lib.0 as usize)
}

/// The library with this name.
#[tactic(auto, using(crate::proofs::Places::lib_place))]
pub fn lib_named(design: &Design, name: &Ident) -> Option<LibId>
    ensures value { result ≡ lib_named design.now name.now }
    ensures valid { IsValid design.now }
{
    match lib_position(design.libs(), name) {
        Some(place) => Some(LibId(place as u32)),
        None => None,
    }
}

/// The cell with this name in a library.
#[tactic(auto, using(crate::proofs::Places::cell_place))]
pub fn cell_in(design: &Design, lib: LibId, name: &Ident) -> Option<CellId>
    ensures { result ≡ cell_in design.now name.now lib }
{
    let Some(found) = lib_at(design, lib) else {
        return None;
    };
    match cell_position(&found.cells, name) {
        Some(place) => Some(CellId {
            lib,
            slot: place as u32,
        }),
        None => None,
    }
}

/// Whether two identifiers are the same when case is ignored.
pub fn is_same(a: &Ident, b: &Ident) -> bool
    ensures { result ≡ is_same a.now b.now }
{
    a.same(b)
}

fn has_same(cells: &Row<CellBody>, name: &Ident) -> bool
    ensures { result ≡ list_any (λ cell. is_same cell.name.id name.now) cells.now }
{
    cells
        .as_slice()
        .iter()
        .any(|cell| is_same(&cell.name.id, name))
}

/// Whether no cell of a library has this name, where the case of letters is ignored.
#[tactic(auto, using(crate::proofs::Places::any_name))]
pub fn is_free(design: &Design, lib: LibId, name: &Ident) -> bool
    ensures { result ≡ not (list_any (λ other. is_same other name.now) (cell_names (cells_in design.now lib))) }
{
    match lib_at(design, lib) {
        Some(found) => !has_same(&found.cells, name),
        None => true,
    }
}
