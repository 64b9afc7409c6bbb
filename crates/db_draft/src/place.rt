//! Changes of bodies in place.
ghost use Rattle.std.specs.Prelude.{◌≡◌, map, slice_get, IsSomeAnd, Some};
ghost use Rattle.std.specs.Arc.{arc_value};
ghost use Rattle.netlist_schema.specs.Types.{CellBody as CellBody'};
ghost use Rattle.db_draft.specs.Drafts.{HasNewLayer};
ghost use Rattle.db_draft.specs.Make.{CanFit};
ghost use Rattle.db_draft.specs.Place.{body_at, HasBody, IsTried, IsTriedAt, IsTriedIn, IsTriedSlot};

use crate::layer::Layer;
use crate::make::change_body;
use edit_cells::CellChange;
use netlist_schema::{CellBody, LibId, NoMemory};
use std::collections::BTreeMap;
use std::sync::Arc;

/// What became of a change that was to be made in place.
#[derive(Drop)]
pub enum Tried {
    Made,
    /// Memory was refused.
    Refused,
    /// The body is not here, or somebody else has it too. The change comes back.
    NotHere(CellChange),
}

/// Changes a body, where nobody else has it.
fn try_body(body: &mut Arc<CellBody>, change: CellChange) -> Tried
    requires { CanFit change (arc_value body.old) }
    ensures { IsTried (arc_value body.old) (arc_value body.new) change result }
{
    let Some(own) = Arc::get_mut(body) else {
        return Tried::NotHere(change);
    };
    match change_body(own, change) {
        Ok(()) => Tried::Made,
        Err(NoMemory) => Tried::Refused,
    }
}

/// Changes the body at a place.
pub(crate) fn try_added(bodies: &mut Vec<Arc<CellBody>>, place: usize, change: CellChange) -> Tried
    requires { (body : CellBody') → slice_get (map arc_value bodies.old.items) place ≡ Some body → CanFit change body }
    ensures { IsTriedAt (map arc_value bodies.old.items) (map arc_value bodies.new.items) place change result }
{
    if place >= bodies.len() {
        return Tried::NotHere(change);
    }
    try_body(&mut bodies[place], change)
}

/// Changes the body of a slot.
pub(crate) fn try_changed(
    bodies: &mut BTreeMap<u32, Arc<CellBody>>,
    slot: u32,
    change: CellChange,
) -> Tried
    requires { (body : CellBody') → body_at bodies.old slot ≡ Some body → CanFit change body }
    ensures { IsTriedSlot bodies.old bodies.new slot change result }
{
    match bodies.get_mut(&slot) {
        Some(body) => try_body(body, change),
        None => Tried::NotHere(change),
    }
}

/// Changes a cell of a library in its layer.
pub(crate) fn try_in(
    layers: &mut Vec<Layer>,
    lib: LibId,
    count: u32,
    slot: u32,
    change: CellChange,
) -> Tried
    requires { IsSomeAnd (slice_get layers.old.items lib.0) (λ layer. (body : CellBody') → HasBody layer count slot body → CanFit change body) }
    ensures { HasNewLayer layers.old.items layers.new.items lib.0 (λ old new. IsTriedIn old new count slot change result) }
{
    layers[lib.0 as usize].try_change(count, slot, change)
}
