//! What naming a copy looks at.
ghost use Rattle.std.specs.Prelude.{◌≡◌, ◌<◌, ◌+◌, ◌^◌, IfOk, length, option_map};
ghost use Rattle.netlist_schema.specs.Design.{cells_in};
ghost use Rattle.netlist_schema.specs.Hierarchy.{IsCell};
ghost use Rattle.netlist_schema.specs.Names.{cell_names};
ghost use Rattle.uniquify_spec.specs.Copies.{is_free, name_at, numbered};
ghost use Rattle.edit_cells.specs.State.{HasReadSome};
ghost use Rattle.uniquify_copies.specs.Known.{IsFirstFree};

use crate::numbers::numbered_ident;
use edit_cells::{Cells, Face};
use netlist_schema::{CellId, Copied, Ident, LibId, Name, NoMemory};
use std::alloc::Global;

/// A number, and the identifier with its ending.
#[derive(Debug, Drop)]
pub struct Numbered {
    pub number: u64,
    pub id: Ident,
}

/// The number of cells of a library.
pub(crate) fn count_of<C: Cells>(cells: &mut C, lib: LibId) -> Result<u32, NoMemory>
    ensures value { IfOk result (λ n. n ≡ length (cells_in (C.state cells.old).design lib)) }
    ensures some { HasReadSome (C.state cells.old) (C.state cells.new) }
{
    cells.count(lib)
}

/// Whether an identifier is free in a library.
fn is_free<C: Cells>(cells: &mut C, lib: LibId, id: &Ident) -> Result<bool, NoMemory>
    ensures value { IfOk result (λ free. free ≡ is_free (cell_names (cells_in (C.state cells.old).design lib)) id.now) }
    ensures some { HasReadSome (C.state cells.old) (C.state cells.new) }
{
    cells.name_free(lib, id)
}

/// The name that a look from outside shows.
fn shown_name(alloc: Global, face: Option<Face<'_>>) -> Result<Option<Name>, NoMemory>
    ensures { IfOk result (λ name. name ≡ option_map (λ f. f.name.now) face.entry) }
{
    match face {
        Some(face) => Ok(Some(face.name.copy(alloc)?)),
        None => Ok(None),
    }
}

/// The name of a cell.
#[tactic(auto, using(crate::proofs::Names::name_seen, crate::proofs::Names::is_seen))]
pub(crate) fn name_of<C: Cells>(alloc: Global, cells: &mut C, id: CellId) -> Result<Name, NoMemory>
    requires { IsCell (C.state cells.old).design id }
    ensures value { IfOk result (λ name. name ≡ name_at (C.state cells.old).design id) }
    ensures some { HasReadSome (C.state cells.old) (C.state cells.new) }
{
    match shown_name(alloc, cells.face(id)?)? {
        Some(name) => Ok(name),
        None => unreachable!(),
    }
}

/// The first number from one on with whose ending an identifier is free in a library.
pub(crate) fn first_free<C: Cells>(
    alloc: Global,
    cells: &mut C,
    lib: LibId,
    id: &Ident,
    from: u64,
) -> Result<Numbered, NoMemory>
    ensures value { IfOk result (λ found. IsFirstFree (cell_names (cells_in (C.state cells.old).design lib)) id.now from found.number × (found.id ≡ numbered id.now found.number)) }
    ensures room { IfOk result (λ found. found.number + 1 < 2 ^ 64) }
    ensures some { HasReadSome (C.state cells.old) (C.state cells.new) }
{
    for number in from..u64::MAX {
        let made = numbered_ident(alloc, id, number)?;
        let Ok(free) = is_free(cells, lib, &made) else {
            return Err(NoMemory);
        };
        if free {
            return Ok(Numbered { number, id: made });
        }
    }
    Err(NoMemory)
}
